ghost use Rattle.std.specs.Prelude.{◌≡◌, map, slice_get};
ghost use Rattle.std.specs.List.{list_all};
ghost use Rattle.db_model.specs.Forms.{is_between};
ghost use Rattle.db_model.specs.Names.{table_at, column_at, variable_at};
ghost use Rattle.db_model.specs.declared.value.Ty.TheVariants.{Buf};
ghost use Rattle.db_model.specs.Special.{special};
ghost use Rattle.db_model.specs.Typing.{ty_of, is_of, typed_if, operator_ty, variable_ty, column_ty, columns_in, special_ty, declared_ty};
ghost use Rattle.expr_type.specs.Scope.{IsScope};

use crate::Scope;
use crate::logic::both;
use db_model::{Expr, MOST_NUMBER_BYTES, Name, Operator, Special, Ty};

/// The type of an expression whose names are declared. None: the types of its parts don't fit.
#[cycle(types)]
pub fn type_by(e: &Expr, scope: &Scope) -> Option<Ty>
    requires { IsScope scope.now }
    ensures { result ≡ ty_of scope.now.database.now e.now }
{
    match e {
        Expr::Number(_) => Some(Ty::Num),
        Expr::Text(_) => Some(Ty::Buf),
        Expr::Protocol(_) => Some(Ty::Proto),
        Expr::Field(_) => Some(Ty::Buf),
        Expr::Variable(name) => of_variable(name, scope),
        Expr::Column { table, column } => of_column(table, column, scope),
        Expr::IsPresent(_) => Some(Ty::Num),
        Expr::Not(a) => typed(is(Ty::Num, type_by(a.get(), scope)), Ty::Num),
        Expr::And(a, b) => typed(
            both(
                is(Ty::Num, type_by(a.get(), scope)),
                is(Ty::Num, type_by(b.get(), scope)),
            ),
            Ty::Num,
        ),
        Expr::Or(a, b) => typed(
            both(
                is(Ty::Num, type_by(a.get(), scope)),
                is(Ty::Num, type_by(b.get(), scope)),
            ),
            Ty::Num,
        ),
        Expr::Binary(operator, a, b) => {
            of_operator(*operator, type_by(a.get(), scope), type_by(b.get(), scope))
        }
        Expr::Slice { base, from, count } => typed(
            both(
                is(Ty::Buf, type_by(base.get(), scope)),
                both(
                    is(Ty::Num, type_by(from.get(), scope)),
                    is(Ty::Num, type_by(count.get(), scope)),
                ),
            ),
            Ty::Buf,
        ),
        Expr::ToNumber(a) => typed(is(Ty::Buf, type_by(a.get(), scope)), Ty::Num),
        Expr::LengthOf(a) => typed(is(Ty::Buf, type_by(a.get(), scope)), Ty::Num),
        Expr::ToBytes { value, size } => typed(
            both(is(Ty::Num, type_by(value.get(), scope)), is_size(*size)),
            Ty::Buf,
        ),
        Expr::HasText { within, .. } => typed(is(Ty::Buf, type_by(within.get(), scope)), Ty::Num),
        Expr::LookUp { keys, .. } => typed(all_bytes(keys.as_slice(), scope), Ty::Num),
    }
}

#[cycle(types)]
fn all_bytes(keys: &[Expr], scope: &Scope) -> bool
    requires { IsScope scope.now }
    ensures { result ≡ list_all (is_of Buf) (map (ty_of scope.now.database.now) keys.now) }
{
    for key in keys {
        if !is(Ty::Buf, type_by(key, scope)) {
            return false;
        }
    }
    true
}

/// A number is written as 1 to 4 bytes.
fn is_size(size: u32) -> bool
    ensures { result ≡ is_between 1 MOST_NUMBER_BYTES size }
{
    1 <= size && size <= MOST_NUMBER_BYTES
}

fn is(wanted: Ty, ty: Option<Ty>) -> bool
    ensures { result ≡ is_of wanted ty }
{
    ty == Some(wanted)
}

fn typed(fit: bool, ty: Ty) -> Option<Ty>
    ensures { result ≡ typed_if fit ty }
{
    if fit { Some(ty) } else { None }
}

fn of_operator(operator: Operator, a: Option<Ty>, b: Option<Ty>) -> Option<Ty>
    ensures { result ≡ operator_ty operator a b }
{
    match operator {
        Operator::Eq | Operator::Ne => typed(a.is_some() && a == b, Ty::Num),
        Operator::Add
        | Operator::Sub
        | Operator::Mul
        | Operator::Div
        | Operator::Mod
        | Operator::BitAnd
        | Operator::BitOr
        | Operator::Lt
        | Operator::Le
        | Operator::Gt
        | Operator::Ge => typed(both(is(Ty::Num, a), is(Ty::Num, b)), Ty::Num),
    }
}

fn of_variable(name: &Name, scope: &Scope) -> Option<Ty>
    requires { IsScope scope.now }
    ensures { result ≡ variable_ty scope.now.database.now (special name.now) name.now }
{
    match Special::of(name.as_slice()) {
        Some(special) => Some(of_special(special)),
        None => declared_type(name, scope),
    }
}

/// The type of a declared variable.
pub fn declared_type(name: &Name, scope: &Scope) -> Option<Ty>
    requires { IsScope scope.now }
    ensures { result ≡ declared_ty (slice_get scope.now.database.now.variables
        (variable_at scope.now.database.now name.now)) }
{
    let at = scope.names.variable_at(scope.database, name.as_slice());
    match scope.database.variables.get(at) {
        Some(declared) => Some(declared.ty),
        None => None,
    }
}

fn of_special(special: Special) -> Ty
    ensures { result ≡ special_ty special }
{
    match special {
        Special::Packet => Ty::Buf,
        Special::PacketLength | Special::CurrentOffset | Special::ProtoOffset | Special::LinkType =>
            Ty::Num,
    }
}

fn of_column(table: &Name, column: &Name, scope: &Scope) -> Option<Ty>
    requires { IsScope scope.now }
    ensures { result ≡ column_ty (slice_get (columns_in (slice_get scope.now.database.now.tables
        (table_at scope.now.database.now table.now))) (column_at (slice_get scope.now.database.now.tables
        (table_at scope.now.database.now table.now)) column.now)) }
{
    let at = scope.names.table_at(scope.database, table.as_slice());
    let declared = scope.database.tables.get(at)?;
    let place = scope.names.column_at(scope.database, at, column.as_slice());
    let column = declared.columns.get(place)?;
    Some(column.ty)
}
