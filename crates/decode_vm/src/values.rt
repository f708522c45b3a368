ghost use Rattle.std.specs.Prelude.{◌≡◌, ◌<◌, OnOk};
ghost use Rattle.db_model.specs.Expression.{num, proto};
ghost use Rattle.decode_vm.specs.Machine.{halted};
ghost use Rattle.decode_vm.specs.Program.{HasValue};
ghost use Rattle.decode_vm.specs.Values.{Settled};
ghost use Rattle.expr_code.specs.Meaning.{code_val};
ghost use Rattle.pdl_code.specs.Does.{number};

use crate::machine::{Machine, Mode};
use crate::program::Program;
use db_model::{Answers, NoMemory, Node, Reason, STAMP_END, Value, Way};
use expr_code::ExprCode;
use expr_eval::{EvalEnd, eval, eval_number};

/// Ends the decoding: its note is the last node of the innermost list.
pub fn halt(m: &mut Machine, reason: Reason) -> Result<(), NoMemory>
    ensures { OnOk result (m.new ≡ halted reason m.old) }
{
    let pos = m.frame.env.at;
    m.nodes.push(Node::Note { reason, pos })?;
    m.mode = Mode::Leaving(Way::Stop(reason));
    Ok(())
}

/// The value of an evaluation. None: it had no value, for a reason that ends the decoding.
pub fn settle<T: Drop>(m: &mut Machine, value: Result<T, EvalEnd>) -> Result<Option<T>, NoMemory>
    ensures { Settled value m.old result m.new }
{
    match value {
        Ok(v) => Ok(Some(v)),
        Err(EvalEnd::Fault(reason)) => {
            halt(m, reason)?;
            Ok(None)
        }
        Err(EvalEnd::NoMemory) => Err(NoMemory),
    }
}

/// The value of the code of an expression, as in `settle`.
pub fn evaluate<A: Answers>(
    program: &Program<'_>,
    code: &ExprCode,
    m: &mut Machine,
    answers: &mut A,
) -> Result<Option<Value>, NoMemory>
    requires database { A.database answers.old ≡ program.now.db.now }
    requires time { m.old.frame.env.packet.stamp < STAMP_END }
    ensures database { A.database answers.new ≡ program.now.db.now }
    ensures value { HasValue A.content A.told program.now (code_val program.now.db.now code.now)
        (m.old, answers.old) result (m.new, answers.new) }
{
    let value = eval(program.alloc, code, program.db, &mut m.frame.env, answers);
    settle(m, value)
}

/// The same as a number, 0 where it is none.
pub fn evaluate_number<A: Answers>(
    program: &Program<'_>,
    code: &ExprCode,
    m: &mut Machine,
    answers: &mut A,
) -> Result<Option<u32>, NoMemory>
    requires database { A.database answers.old ≡ program.now.db.now }
    requires time { m.old.frame.env.packet.stamp < STAMP_END }
    ensures database { A.database answers.new ≡ program.now.db.now }
    ensures value { HasValue A.content A.told program.now (number program.now.db.now code.now)
        (m.old, answers.old) result (m.new, answers.new) }
{
    let value = eval_number(program.alloc, code, program.db, &mut m.frame.env, answers);
    settle(m, value)
}

/// 0 where it is no number.
pub fn number_of(value: &Value) -> u32
    ensures { result ≡ num value.now }
{
    match value {
        Value::Num(n) => *n,
        Value::Buf(_) | Value::Proto(_) => 0,
    }
}

/// Protocol 0 where it is no protocol.
pub fn protocol_of(value: &Value) -> u16
    ensures { result ≡ proto value.now }
{
    match value {
        Value::Proto(p) => *p,
        Value::Num(_) | Value::Buf(_) => 0,
    }
}
