ghost use Rattle.std.specs.Prelude.{◌≡◌, map};
ghost use Rattle.db_model.specs.Typing.{has_undeclared, some_of};
ghost use Rattle.expr_type.specs.Scope.{IsScope};

use crate::Scope;
use crate::logic::either;
use db_model::Expr;

/// Whether an expression names something that isn't declared.
#[cycle(names)]
pub fn has_undeclared(e: &Expr, scope: &Scope) -> bool
    requires { IsScope scope.now }
    ensures { result ≡ has_undeclared scope.now.database.now scope.now.fields.now e.now }
{
    match e {
        Expr::Number(_) => false,
        Expr::Text(_) => false,
        Expr::Protocol(name) => !scope.has_protocol(name.as_slice()),
        Expr::Field(name) => !scope.has_field(name.as_slice()),
        Expr::Variable(name) => !scope.has_variable(name.as_slice()),
        Expr::Column { table, column } => !scope.has_column(table.as_slice(), column.as_slice()),
        Expr::IsPresent(name) => !scope.has_field(name.as_slice()),
        Expr::Not(a) => has_undeclared(a.get(), scope),
        Expr::And(a, b) => either(
            has_undeclared(a.get(), scope),
            has_undeclared(b.get(), scope),
        ),
        Expr::Or(a, b) => either(
            has_undeclared(a.get(), scope),
            has_undeclared(b.get(), scope),
        ),
        Expr::Binary(_, a, b) => either(
            has_undeclared(a.get(), scope),
            has_undeclared(b.get(), scope),
        ),
        Expr::Slice { base, from, count } => either(
            has_undeclared(base.get(), scope),
            either(
                has_undeclared(from.get(), scope),
                has_undeclared(count.get(), scope),
            ),
        ),
        Expr::ToNumber(a) => has_undeclared(a.get(), scope),
        Expr::LengthOf(a) => has_undeclared(a.get(), scope),
        Expr::ToBytes { value, .. } => has_undeclared(value.get(), scope),
        Expr::HasText { within, .. } => has_undeclared(within.get(), scope),
        Expr::LookUp { table, keys, .. } => either(
            !scope.has_table(table.as_slice()),
            some_undeclared(keys.as_slice(), scope),
        ),
    }
}

#[cycle(names)]
fn some_undeclared(keys: &[Expr], scope: &Scope) -> bool
    requires { IsScope scope.now }
    ensures { result ≡ some_of (map (has_undeclared scope.now.database.now scope.now.fields.now) keys.now) }
{
    for key in keys {
        if has_undeclared(key, scope) {
            return true;
        }
    }
    false
}
