ghost use Rattle.std.specs.Prelude.{◌≡◌, ◌≤◌, MatchResult, length, take, drop, slice_get};
ghost use Rattle.db_model.specs.declared.value.Value.TheVariants.{Num, Buf};
ghost use Rattle.db_model.specs.Expression.{num, buf, value_or_zero};
ghost use Rattle.expr_eval.specs.declared.end.EvalEnd.TheVariants.{NoMemory as Refused};
ghost use Rattle.expr_eval.specs.declared.operand.Operand.TheVariants.{Own};
ghost use Rattle.expr_eval.specs.Operand.{bytes_at, number_operand, shown, seen};
ghost use Rattle.expr_eval.specs.Sources.{Sources, sources};

use crate::EvalEnd;
use db_model::{Bytes, Env, MOST_BYTES, Row, Value};
use std::alloc::Global;

/// What a part of an expression gives: a value of its own, or bytes that the state holds, which are not copied while
/// they are only measured, compared, cut or converted. No evaluation changes what these bytes are read from, so an
/// operand stands for the same value while others are evaluated.
#[derive(Drop)]
pub enum Operand {
    Own(Value),
    /// The bytes of the packet from a position on, `count` of them where so many are there.
    Piece { from: u32, count: u32 },
    /// The value of the decoded field at this place.
    Field(usize),
    /// The bytes of the variable at this place.
    Variable(usize),
}

/// A look at an operand, its bytes borrowed.
#[derive(Clone, Copy)]
pub enum View<'a> {
    Number(u32),
    Bytes(&'a [u8]),
    Protocol(u16),
}

/// The bytes from a position on, at most `count` of them.
pub fn piece(bytes: &[u8], from: u32, count: u32) -> &[u8]
    ensures { result.now ≡ take count (drop from bytes.now) }
{
    let rest = bytes.get(from as usize..).unwrap_or_default();
    rest.get(..count as usize).unwrap_or(rest)
}

/// The bytes of a value, none where it has none.
pub fn bytes_of(value: &Value) -> &[u8]
    ensures bytes { result.now ≡ buf value.now }
    ensures bound { length result.now ≤ MOST_BYTES }
{
    match value {
        Value::Buf(bytes) => bytes.as_slice(),
        Value::Num(_) | Value::Proto(_) => &[],
    }
}

/// The value of the decoded field at this place, no bytes where there is none.
pub fn field_bytes(present: &[(u32, Bytes)], at: usize) -> &[u8]
    ensures bytes { result.now ≡ bytes_at (slice_get present.now at) }
    ensures bound { length result.now ≤ MOST_BYTES }
{
    match present.get(at) {
        Some((_field, value)) => value.as_slice(),
        None => &[],
    }
}

/// The bytes of the variable at this place, none where it has none.
fn variable_bytes(vars: &Row, at: usize) -> &[u8]
    ensures bytes { result.now ≡ buf (value_or_zero (slice_get vars.now at)) }
    ensures bound { length result.now ≤ MOST_BYTES }
{
    match vars.get(at) {
        Some(value) => bytes_of(value),
        None => &[],
    }
}

fn copied(alloc: Global, bytes: &[u8]) -> Result<Value, EvalEnd>
    requires { length bytes.now ≤ MOST_BYTES }
    ensures { MatchResult result (λ v. v ≡ Buf bytes.now) (λ e. e ≡ Refused) }
{
    Ok(Value::Buf(Bytes::copy_of(alloc, bytes)?))
}

/// A number as an operand.
pub fn as_operand(n: Result<u32, EvalEnd>) -> Result<Operand, EvalEnd>
    ensures { result ≡ number_operand n }
{
    match n {
        Ok(n) => Ok(Operand::of_number(n)),
        Err(e) => Err(e),
    }
}

impl Operand {
    pub fn of_number(n: u32) -> Operand
        ensures { result ≡ Own (Num n) }
    {
        Operand::Own(Value::Num(n))
    }

    /// 0 where it is no number.
    pub fn number(&self) -> u32
        ensures { (held : Sources) → result ≡ num (shown held self.now) }
    {
        match self {
            Operand::Own(Value::Num(n)) => *n,
            Operand::Own(Value::Buf(_) | Value::Proto(_))
            | Operand::Piece { .. }
            | Operand::Field(_)
            | Operand::Variable(_) => 0,
        }
    }

    /// No bytes where it has none.
    pub fn bytes<'a>(&'a self, env: &'a Env) -> &'a [u8]
        ensures bytes { result.now ≡ buf (shown (sources env.now) self.now) }
        ensures bound { length result.now ≤ MOST_BYTES }
    {
        match self {
            Operand::Own(value) => bytes_of(value),
            Operand::Piece { from, count } => piece(env.packet.bytes.as_slice(), *from, *count),
            Operand::Field(at) => field_bytes(env.present.as_slice(), *at),
            Operand::Variable(at) => variable_bytes(&env.vars, *at),
        }
    }

    pub fn view<'a>(&'a self, env: &'a Env) -> View<'a>
        ensures { seen result ≡ shown (sources env.now) self.now }
    {
        match self {
            Operand::Own(Value::Num(n)) => View::Number(*n),
            Operand::Own(Value::Buf(bytes)) => View::Bytes(bytes.as_slice()),
            Operand::Own(Value::Proto(p)) => View::Protocol(*p),
            Operand::Piece { from, count } => {
                View::Bytes(piece(env.packet.bytes.as_slice(), *from, *count))
            }
            Operand::Field(at) => View::Bytes(field_bytes(env.present.as_slice(), *at)),
            Operand::Variable(at) => View::Bytes(variable_bytes(&env.vars, *at)),
        }
    }

    /// The value itself, with a copy of its bytes where they are the state's.
    pub fn into_value(self, alloc: Global, env: &Env) -> Result<Value, EvalEnd>
        ensures { MatchResult result (λ v. v ≡ shown (sources env.now) self) (λ e. e ≡ Refused) }
    {
        match self {
            Operand::Own(value) => Ok(value),
            Operand::Piece { from, count } => {
                copied(alloc, piece(env.packet.bytes.as_slice(), from, count))
            }
            Operand::Field(at) => copied(alloc, field_bytes(env.present.as_slice(), at)),
            Operand::Variable(at) => copied(alloc, variable_bytes(&env.vars, at)),
        }
    }
}
