ghost use Rattle.std.specs.Prelude.{◌≡◌, length, ◌==◌};
ghost use Rattle.db_model.specs.declared.tree.Reason.TheVariants.{KeySize};
ghost use Rattle.db_model.specs.declared.value.Value.TheVariants.{Num};
ghost use Rattle.db_model.specs.Expression;
ghost use Rattle.db_model.specs.Expression.{buf, truth, when};
ghost use Rattle.db_model.specs.Numbers.{occurs};
ghost use Rattle.expr_eval.specs.Evaluates.{Gave};
ghost use Rattle.expr_eval.specs.Operand.{shown};
ghost use Rattle.expr_eval.specs.Sources.{sources};

use crate::numbers::of_truth;
use crate::operand::Operand;
use crate::{EvalEnd, numbers, values};
use db_model::{Bytes, Env, Operator, Reason};
use std::alloc::Global;

pub fn binary(op: Operator, x: &Operand, y: &Operand, env: &Env) -> Result<u32, EvalEnd>
    ensures { Gave Num (Expression.binary op (shown (sources env.now) x.now) (shown (sources env.now) y.now)) result }
{
    let x = x.view(env);
    let y = y.view(env);
    values::binary(op, x, y)
}

pub fn to_number(x: &Operand, env: &Env) -> Result<u32, EvalEnd>
    ensures { Gave Num (Expression.to_number (buf (shown (sources env.now) x.now))) result }
{
    numbers::to_number(x.bytes(env))
}

pub fn length_of(x: &Operand, env: &Env) -> u32
    ensures { result ≡ length (buf (shown (sources env.now) x.now)) }
{
    x.bytes(env).len() as u32
}

/// 1 where the text stands somewhere within the bytes.
pub fn has_text(x: &Operand, text: &Bytes, env: &Env) -> u32
    ensures { Num result ≡ truth (occurs text.now (buf (shown (sources env.now) x.now))) }
{
    of_truth(values::has_text(x.bytes(env), text.as_slice()))
}

/// A copy of the bytes of a key, which has so many.
pub fn key(alloc: Global, x: &Operand, size: u32, env: &Env) -> Result<Bytes, EvalEnd>
    ensures { Gave (λ k. k)
        (when (length (buf (shown (sources env.now) x.now)) == size) KeySize
        (buf (shown (sources env.now) x.now))) result }
{
    let bytes = x.bytes(env);
    if bytes.len() != size as usize {
        return Err(EvalEnd::Fault(Reason::KeySize));
    }
    Ok(Bytes::copy_of(alloc, bytes)?)
}
