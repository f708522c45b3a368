ghost use Rattle.std.specs.Prelude.{◌≡◌, slice_get, None, Ok};
ghost use Rattle.db_model.specs.declared.value.Value.TheVariants.{Buf, Num};
ghost use Rattle.db_model.specs.Expression.{num, special_value, truth, value_or_zero};
ghost use Rattle.expr_code.specs.Meaning.{last_in, some_in};
ghost use Rattle.expr_eval.specs.Evaluates.{Gave};
ghost use Rattle.expr_eval.specs.Operand.{shown};
ghost use Rattle.expr_eval.specs.Reads.{field_value, field_number, column_value};
ghost use Rattle.expr_eval.specs.Sources.{Sources, sources};

use crate::EvalEnd;
use crate::fields::{is_present, last_place};
use crate::numbers::{of_truth, to_number};
use crate::operand::{Operand, field_bytes};
use db_model::{Bytes, Env, Reason, Row, Special, Value};
use expr_code::FieldNumbers;

/// NoField: no field with one of these numbers was decoded.
pub fn field(numbers: &FieldNumbers, env: &Env) -> Result<Operand, EvalEnd>
    ensures { Gave (shown (sources env.now))
        (field_value (last_in numbers.now env.now.present None)) result }
{
    match last_place(numbers.as_slice(), &env.present) {
        Some(at) => Ok(Operand::Field(at)),
        None => Err(EvalEnd::Fault(Reason::NoField)),
    }
}

/// The same as a number, read in place. NoField: no such field was decoded. Size: it has no byte, or more than a
/// number has.
pub fn field_number(numbers: &FieldNumbers, env: &Env) -> Result<u32, EvalEnd>
    ensures { Gave Num (field_number (last_in numbers.now env.now.present None)) result }
{
    match last_place(numbers.as_slice(), &env.present) {
        Some(at) => to_number(field_bytes(env.present.as_slice(), at)),
        None => Err(EvalEnd::Fault(Reason::NoField)),
    }
}

/// 1 where a field with one of these numbers was decoded.
pub fn presence(numbers: &FieldNumbers, env: &Env) -> u32
    ensures { Num result ≡ truth (some_in numbers.now env.now.present) }
{
    of_truth(is_present(numbers.as_slice(), &env.present))
}

/// The captured bytes are a piece of themselves.
pub fn special(special: Special, env: &Env) -> Operand
    ensures { shown (sources env.now) result ≡ special_value special env.now }
{
    match special {
        Special::Packet => Operand::Piece {
            from: 0,
            count: env.packet.bytes.as_slice().len() as u32,
        },
        Special::PacketLength => Operand::of_number(env.packet.bytes.as_slice().len() as u32),
        Special::CurrentOffset => Operand::of_number(env.at),
        Special::ProtoOffset => Operand::of_number(env.origin),
        Special::LinkType => Operand::of_number(env.packet.link as u32),
    }
}

/// The same as a number, 0 where it is bytes.
pub fn special_number(special: Special, env: &Env) -> u32
    ensures { result ≡ num (special_value special env.now) }
{
    match special {
        Special::Packet => 0,
        Special::PacketLength => env.packet.bytes.as_slice().len() as u32,
        Special::CurrentOffset => env.at,
        Special::ProtoOffset => env.origin,
        Special::LinkType => env.packet.link as u32,
    }
}

/// A value of a row, or 0 where there is none at this place.
fn value_at(row: &Row, at: usize) -> Result<Operand, EvalEnd>
    ensures { (held : Sources) → Gave (shown held) (Ok (value_or_zero (slice_get row.now at))) result }
{
    match row.get(at) {
        Some(value) => Ok(Operand::Own(value.clone()?)),
        None => Ok(Operand::of_number(0)),
    }
}

/// The value of the declared variable at this place, 0 where there is none.
pub fn variable(at: usize, env: &Env) -> Operand
    ensures { shown (sources env.now) result ≡ value_or_zero (slice_get env.now.vars at) }
{
    match env.vars.get(at) {
        Some(Value::Num(n)) => Operand::of_number(*n),
        Some(Value::Buf(_)) => Operand::Variable(at),
        Some(Value::Proto(p)) => Operand::Own(Value::Proto(*p)),
        None => Operand::of_number(0),
    }
}

/// The same as a number, 0 where it is none.
pub fn variable_number(at: usize, env: &Env) -> u32
    ensures { result ≡ num (value_or_zero (slice_get env.now.vars at)) }
{
    match env.vars.get(at) {
        Some(Value::Num(n)) => *n,
        Some(Value::Buf(_) | Value::Proto(_)) | None => 0,
    }
}

/// NoHit: no row was hit in the table.
pub fn column(table: usize, column: usize, env: &Env) -> Result<Operand, EvalEnd>
    ensures { Gave (shown (sources env.now))
        (column_value (slice_get env.now.hits table) column) result }
{
    match env.hits.get(table) {
        Some(Some(row)) => value_at(row, column),
        Some(None) | None => Err(EvalEnd::Fault(Reason::NoHit)),
    }
}

pub fn text(text: &Bytes) -> Result<Operand, EvalEnd>
    ensures { (held : Sources) → Gave (shown held) (Ok (Buf text.now)) result }
{
    Ok(Operand::Own(Value::Buf(text.clone()?)))
}
