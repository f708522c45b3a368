ghost use Rattle.std.specs.Prelude.{◌≡◌, ◌<◌, Some, slice_get, slice_set};
ghost use Rattle.decode_vm.specs.Program.{Steps};
ghost use Rattle.pdl_code.specs.declared.code.Op.TheVariants.{Assign};
ghost use Rattle.decode_vm.specs.declared.machine.Mode.TheVariants.{At};

use crate::choose::behind;
use crate::machine::{Machine, Mode};
use crate::program::Program;
use crate::values::evaluate;
use db_model::{Answers, Env, NoMemory, STAMP_END, Value};
use expr_code::ExprCode;

/// Sets the variable of this number.
pub fn assign<A: Answers>(
    program: &Program<'_>,
    pc: usize,
    variable: usize,
    value: &ExprCode,
    m: &mut Machine,
    answers: &mut A,
) -> Result<(), NoMemory>
    requires database { A.database answers.old ≡ program.now.db.now }
    requires time { m.old.frame.env.packet.stamp < STAMP_END }
    requires mode { m.old.mode ≡ At pc }
    requires stands { slice_get program.now.code.now.ops pc ≡ Some (Assign variable value.now) }
    ensures database { A.database answers.new ≡ program.now.db.now }
    ensures moves { Steps A.content A.told program.now (m.old, answers.old) result (m.new, answers.new) }
{
    match evaluate(program, value, m, answers)? {
        Some(v) => {
            set_variable(&mut m.frame.env, variable, v);
            m.mode = Mode::At(behind(program.code, pc, 0));
            Ok(())
        }
        None => Ok(()),
    }
}

fn set_variable(env: &mut Env, variable: usize, value: Value)
    ensures { env.new ≡ record env.old { vars = slice_set env.old.vars variable value } }
{
    if variable < env.vars.len() {
        env.vars.set(variable, value);
    }
}
