ghost use Rattle.std.specs.Prelude.{◌≡◌, map, slice_get, length};
ghost use Rattle.db_model.specs.Names.{table_at};
ghost use Rattle.db_model.specs.Typing.{has_wrong_arity, has_keys, some_of};
ghost use Rattle.expr_type.specs.Scope.{IsScope};

use crate::Scope;
use crate::logic::either;
use db_model::{Expr, Name};

/// Whether an expression has a look-up with a wrong number of keys. One in a table that isn't declared has none.
#[cycle(arity)]
pub fn has_wrong_arity(e: &Expr, scope: &Scope) -> bool
    requires { IsScope scope.now }
    ensures { result ≡ has_wrong_arity scope.now.database.now e.now }
{
    match e {
        Expr::Number(_) => false,
        Expr::Text(_) => false,
        Expr::Protocol(_) => false,
        Expr::Field(_) => false,
        Expr::Variable(_) => false,
        Expr::Column { .. } => false,
        Expr::IsPresent(_) => false,
        Expr::Not(a) => has_wrong_arity(a.get(), scope),
        Expr::And(a, b) => either(
            has_wrong_arity(a.get(), scope),
            has_wrong_arity(b.get(), scope),
        ),
        Expr::Or(a, b) => either(
            has_wrong_arity(a.get(), scope),
            has_wrong_arity(b.get(), scope),
        ),
        Expr::Binary(_, a, b) => either(
            has_wrong_arity(a.get(), scope),
            has_wrong_arity(b.get(), scope),
        ),
        Expr::Slice { base, from, count } => either(
            has_wrong_arity(base.get(), scope),
            either(
                has_wrong_arity(from.get(), scope),
                has_wrong_arity(count.get(), scope),
            ),
        ),
        Expr::ToNumber(a) => has_wrong_arity(a.get(), scope),
        Expr::LengthOf(a) => has_wrong_arity(a.get(), scope),
        Expr::ToBytes { value, .. } => has_wrong_arity(value.get(), scope),
        Expr::HasText { within, .. } => has_wrong_arity(within.get(), scope),
        Expr::LookUp { table, keys, .. } => either(
            !takes_keys(scope, table, keys.as_slice().len()),
            some_wrong(keys.as_slice(), scope),
        ),
    }
}

#[cycle(arity)]
fn some_wrong(keys: &[Expr], scope: &Scope) -> bool
    requires { IsScope scope.now }
    ensures { result ≡ some_of (map (has_wrong_arity scope.now.database.now) keys.now) }
{
    for key in keys {
        if has_wrong_arity(key, scope) {
            return true;
        }
    }
    false
}

/// Whether a table has so many keys, where it is declared.
fn takes_keys(scope: &Scope, table: &Name, count: usize) -> bool
    requires { IsScope scope.now }
    ensures { result ≡ has_keys (slice_get scope.now.database.now.tables
        (table_at scope.now.database.now table.now)) count }
{
    let at = scope.names.table_at(scope.database, table.as_slice());
    match scope.database.tables.get(at) {
        Some(declared) => declared.keys.as_slice().len() == count,
        None => true,
    }
}
