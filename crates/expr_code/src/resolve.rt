ghost use Rattle.std.specs.Prelude.{◌≡◌, map, slice_get, IfOk};
ghost use Rattle.db_model.specs.Expression.{val};
ghost use Rattle.db_model.specs.Names.{protocol_at, table_at, column_at};
ghost use Rattle.db_model.specs.Numbering.{names_of_protocol};
ghost use Rattle.db_model.specs.Special.{special};
ghost use Rattle.expr_code.specs.Code;
ghost use Rattle.expr_code.specs.Code.{variable_code, look_up_code};
ghost use Rattle.expr_code.specs.Meaning.{code_val};

use crate::ExprCode;
use crate::numbers::numbers_of;
use db_model::{Bytes, CheckedDb, Expr, Name, NoMemory, Special};
use sqlite_items::{Boxed, Items};
use std::alloc::Global;

/// The code of an expression in the protocol of this number. A protocol that isn't declared has no fields. It goes
/// as deep as the expression, which in a checked database is at most 32 deep.
pub fn code_of(alloc: Global, e: &Expr, db: &CheckedDb, protocol: u16) -> Result<ExprCode, NoMemory>
    ensures code { IfOk result (λ c. c ≡ Code.code_of db.now (names_of_protocol db.now protocol) e.now) }
    ensures means { IfOk result (λ c. code_val db.now c ≡ val db.now (names_of_protocol db.now protocol) e.now) }
{
    resolved(alloc, e, db, db.field_names(protocol))
}

/// The code of an expression where the protocol's fields have these names. The same for those below.
#[cycle(resolve)]
fn resolved(alloc: Global, e: &Expr, db: &CheckedDb, fields: &[Name]) -> Result<ExprCode, NoMemory>
    ensures { IfOk result (λ c. c ≡ Code.code_of db.now fields.now e.now) }
{
    match e {
        Expr::Number(n) => Ok(ExprCode::Number(*n)),
        Expr::Text(text) => Ok(ExprCode::Text(text.clone()?)),
        Expr::Protocol(name) => Ok(ExprCode::Protocol(protocol(db, name))),
        Expr::Field(name) => Ok(ExprCode::Field(numbers_of(alloc, fields, name.as_slice())?)),
        Expr::Variable(name) => Ok(variable(db, name)),
        Expr::Column { table, column } => Ok(column_code(db, table, column)),
        Expr::IsPresent(name) => {
            Ok(ExprCode::IsPresent(numbers_of(alloc, fields, name.as_slice())?))
        }
        Expr::Not(x) => Ok(ExprCode::Not(part(alloc, x, db, fields)?)),
        Expr::And(x, y) => Ok(ExprCode::And(
            part(alloc, x, db, fields)?,
            part(alloc, y, db, fields)?,
        )),
        Expr::Or(x, y) => Ok(ExprCode::Or(
            part(alloc, x, db, fields)?,
            part(alloc, y, db, fields)?,
        )),
        Expr::Binary(operator, x, y) => Ok(ExprCode::Binary(
            *operator,
            part(alloc, x, db, fields)?,
            part(alloc, y, db, fields)?,
        )),
        Expr::Slice { base, from, count } => Ok(ExprCode::Slice {
            base: part(alloc, base, db, fields)?,
            from: part(alloc, from, db, fields)?,
            count: part(alloc, count, db, fields)?,
        }),
        Expr::ToNumber(x) => Ok(ExprCode::ToNumber(part(alloc, x, db, fields)?)),
        Expr::LengthOf(x) => Ok(ExprCode::LengthOf(part(alloc, x, db, fields)?)),
        Expr::ToBytes { value, size } => Ok(ExprCode::ToBytes {
            value: part(alloc, value, db, fields)?,
            size: *size,
        }),
        Expr::HasText { within, text } => has_text(alloc, within, text, db, fields),
        Expr::LookUp { table, renew, keys } => {
            look_up(alloc, table, *renew, keys.as_slice(), db, fields)
        }
    }
}

#[cycle(resolve)]
fn part(
    alloc: Global,
    e: &Boxed<Expr>,
    db: &CheckedDb,
    fields: &[Name],
) -> Result<Boxed<ExprCode>, NoMemory>
    ensures { IfOk result (λ c. c ≡ Code.code_of db.now fields.now e.now) }
{
    Ok(Boxed::new(alloc, resolved(alloc, e.get(), db, fields)?)?)
}

#[cycle(resolve)]
fn has_text(
    alloc: Global,
    within: &Boxed<Expr>,
    text: &Bytes,
    db: &CheckedDb,
    fields: &[Name],
) -> Result<ExprCode, NoMemory>
    ensures { IfOk result (λ c. c ≡ ExprCode.HasText (Code.code_of db.now fields.now within.now) text.now) }
{
    let within = part(alloc, within, db, fields)?;
    let text = text.clone()?;
    Ok(ExprCode::HasText { within, text })
}

/// A table that isn't declared has nothing to hit, and then no key is asked.
#[cycle(resolve)]
fn look_up(
    alloc: Global,
    table: &Name,
    renew: bool,
    keys: &[Expr],
    db: &CheckedDb,
    fields: &[Name],
) -> Result<ExprCode, NoMemory>
    ensures { IfOk result (λ c. c ≡ look_up_code
        (slice_get db.now.tables (table_at db.now table.now)) (table_at db.now table.now) renew
        (map (Code.code_of db.now fields.now) keys.now)) }
{
    let place = db.table_at(table.as_slice());
    match db.database().tables.get(place) {
        Some(_declared) => Ok(ExprCode::LookUp {
            table: place,
            renew,
            keys: parts(alloc, keys, db, fields)?,
        }),
        None => Ok(ExprCode::Number(0)),
    }
}

#[cycle(resolve)]
fn parts(
    alloc: Global,
    expressions: &[Expr],
    db: &CheckedDb,
    fields: &[Name],
) -> Result<Items<ExprCode>, NoMemory>
    ensures { IfOk result (λ cs. cs ≡ map (Code.code_of db.now fields.now) expressions.now) }
{
    let mut codes = Items::new(alloc);
    for e in expressions {
        codes.push(resolved(alloc, e, db, fields)?)?;
    }
    Ok(codes)
}

fn protocol(db: &CheckedDb, name: &Name) -> u16
    ensures { result ≡ protocol_at db.now name.now }
{
    // Its contract says that a checked database has few enough protocols for their numbers.
    let _database = db.database();
    db.protocol_at(name.as_slice()) as u16
}

/// The name stands without its `$`.
fn variable(db: &CheckedDb, name: &Name) -> ExprCode
    ensures { result ≡ variable_code db.now (special name.now) name.now }
{
    match Special::of(name.as_slice()) {
        Some(special) => ExprCode::Special(special),
        None => ExprCode::Variable(db.variable_at(name.as_slice())),
    }
}

fn column_code(db: &CheckedDb, table: &Name, column: &Name) -> ExprCode
    ensures { result ≡ ExprCode.Column (table_at db.now table.now)
        (column_at (slice_get db.now.tables (table_at db.now table.now)) column.now) }
{
    let table = db.table_at(table.as_slice());
    let column = db.column_at(table, column.as_slice());
    ExprCode::Column { table, column }
}
