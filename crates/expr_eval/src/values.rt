ghost use Rattle.std.specs.Prelude.{◌≡◌, ◌+◌, ◌^◌, ◌<◌, ◌≤◌, nat_lt, MatchOption, MatchResult, IfOk, vec_len, length, take, drop};
ghost use Rattle.db_model.specs.declared.value.Value.TheVariants.{Num};
ghost use Rattle.db_model.specs.Expression.{num, buf};
ghost use Rattle.db_model.specs.Expression;
ghost use Rattle.db_model.specs.Numbers;
ghost use Rattle.db_model.specs.Numbers.{occurs};
ghost use Rattle.db_model.specs.Replay.{same_value};
ghost use Rattle.expr_eval.specs.declared.end.EvalEnd.TheVariants.{NoMemory as Refused};
ghost use Rattle.expr_eval.specs.Evaluates.{Gave};
ghost use Rattle.expr_eval.specs.Operand.{shown, seen};
ghost use Rattle.expr_eval.specs.Sources.{Sources, sources};

use crate::EvalEnd;
use crate::numbers::{of_numbers, of_truth};
use crate::operand::{Operand, View, piece};
use db_model::{Bytes, Env, MOST_BYTES, Operator, Reason, Value};
use memchr::memmem;
use std::alloc::Global;

/// 0 where it is no number.
fn number(x: View<'_>) -> u32
    ensures { result ≡ num (seen x.entry) }
{
    match x {
        View::Number(n) => n,
        View::Bytes(_) | View::Protocol(_) => 0,
    }
}

fn is_same(x: View<'_>, y: View<'_>) -> bool
    ensures { result ≡ same_value (seen x.entry) (seen y.entry) }
{
    match (x, y) {
        (View::Number(a), View::Number(b)) => a == b,
        (View::Bytes(a), View::Bytes(b)) => a == b,
        (View::Protocol(a), View::Protocol(b)) => a == b,
        _ => false,
    }
}

/// Whether the values are the same is asked of any; the other operators take them as numbers.
pub fn binary(op: Operator, x: View<'_>, y: View<'_>) -> Result<u32, EvalEnd>
    ensures { Gave Num (Expression.binary op (seen x.entry) (seen y.entry)) result }
{
    match op {
        Operator::Eq => Ok(of_truth(is_same(x, y))),
        Operator::Ne => Ok(of_truth(!is_same(x, y))),
        _ => of_numbers(op, number(x), number(y)),
    }
}

/// Whether a number has no more than so many bytes.
fn is_within(n: u32, size: u32) -> bool
    ensures { result ≡ nat_lt n (256 ^ size) }
{
    match 256u32.checked_pow(size) {
        Some(end) => n < end,
        None => true,
    }
}

/// Whether the text stands somewhere within the bytes.
pub fn has_text(within: &[u8], text: &[u8]) -> bool
    ensures { result ≡ occurs text.now within.now }
{
    memmem::find(within, text).is_some()
}

/// The last so many bytes of a number. Range: the number has more.
pub fn to_bytes(alloc: Global, n: u32, size: u32) -> Result<Operand, EvalEnd>
    ensures { (held : Sources) → Gave (shown held) (Expression.in_bytes size n) result }
{
    if !is_within(n, size) {
        return Err(EvalEnd::Fault(Reason::Range));
    }
    // No typed expression has such a size, and no memory is taken for it.
    if size as usize > MOST_BYTES {
        return Err(EvalEnd::NoMemory);
    }
    let bytes = last_bytes(alloc, n, size)?;
    Ok(Operand::Own(Value::Buf(Bytes::from_vec(bytes))))
}

fn last_bytes(alloc: Global, n: u32, size: u32) -> Result<Vec<u8>, EvalEnd>
    ensures bytes { MatchResult result (λ bytes. bytes.items ≡ Numbers.to_bytes size n) (λ e. e ≡ Refused) }
    ensures len { IfOk result (λ bytes. vec_len bytes ≡ size) }
{
    let mut bytes = Vec::new(alloc);
    let mut left = n;
    for _place in 0..size {
        bytes.push((left % 256) as u8)?;
        left /= 256;
    }
    bytes.reverse();
    Ok(bytes)
}

/// `count` bytes from the place `from` on, where there are so many.
fn cut(bytes: &[u8], from: u32, count: u32) -> Option<&[u8]>
    ensures { MatchOption result (length bytes.now < from + count) (λ piece. (from + count ≤ length bytes.now) × (piece.now ≡ take count (drop from bytes.now))) }
{
    bytes.get(from as usize..)?.get(..count as usize)
}

fn cut_copy(alloc: Global, bytes: &[u8], from: u32, count: u32) -> Result<Operand, EvalEnd>
    requires { length bytes.now ≤ MOST_BYTES }
    ensures { (held : Sources) → Gave (shown held) (Expression.slice bytes.now from count) result }
{
    match cut(bytes, from, count) {
        Some(piece) => Ok(Operand::Own(Value::Buf(Bytes::copy_of(alloc, piece)?))),
        None => Err(EvalEnd::Fault(Reason::Slice)),
    }
}

/// `count` bytes from the place `from` on. Slice: there are not so many.
pub fn slice(
    alloc: Global,
    base: &Operand,
    env: &Env,
    from: u32,
    count: u32,
) -> Result<Operand, EvalEnd>
    ensures { Gave (shown (sources env.now))
        (Expression.slice (buf (shown (sources env.now) base.now)) from count) result }
{
    match base {
        Operand::Piece {
            from: start,
            count: all,
        } => match cut(
            piece(env.packet.bytes.as_slice(), *start, *all),
            from,
            count,
        ) {
            Some(_) => Ok(Operand::Piece {
                from: *start + from,
                count,
            }),
            None => Err(EvalEnd::Fault(Reason::Slice)),
        },
        Operand::Own(_) | Operand::Field(_) | Operand::Variable(_) => {
            cut_copy(alloc, base.bytes(env), from, count)
        }
    }
}
