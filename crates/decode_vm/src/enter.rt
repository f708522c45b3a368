ghost use Rattle.std.specs.Prelude.{◌≡◌, ◌≤◌, ◌<◌, OnOk, Some, slice_get};
ghost use Rattle.db_model.specs.declared.element.LoopKind.TheVariants.{Count, Size};
ghost use Rattle.decode_vm.specs.Machine.{in_mode, opened, place_behind, under};
ghost use Rattle.decode_vm.specs.Program.{Steps};
ghost use Rattle.pdl_code.specs.declared.code.Op.TheVariants.{Loop};
ghost use Rattle.decode_vm.specs.declared.machine.Again.TheVariants.{While};
ghost use Rattle.decode_vm.specs.declared.machine.Mode.TheVariants.{At, Turn};

use crate::choose::behind;
use crate::machine::{Again, Held, Machine, Mode};
use crate::program::Program;
use crate::values::{evaluate_number, halt};
use db_model::{Answers, NoMemory, Nodes, Reason, STAMP_END};
use expr_code::ExprCode;
use pdl_code::ProtoCode;
use std::alloc::Global;
use std::mem;

/// Begins a block whose body stands at a place, or ends the decoding where no node is left.
pub fn open(
    alloc: Global,
    number: u32,
    body: usize,
    after: usize,
    m: &mut Machine,
) -> Result<(), NoMemory>
    ensures { OnOk result (m.new ≡ opened number body after m.old) }
{
    if m.frame.nodes == 0 {
        return halt(m, Reason::Nodes);
    }
    m.frame.nodes -= 1;
    let from = m.frame.env.at;
    let before = mem::replace(&mut m.nodes, Nodes::new(alloc));
    m.held.push(Held::Block {
        number,
        from,
        before,
        after,
    })?;
    m.mode = Mode::At(body);
    Ok(())
}

/// Begins a loop that tests before each turn.
pub fn begin_while(code: &ProtoCode, pc: usize, to: usize, m: &mut Machine)
    ensures { m.new ≡ in_mode (Turn (While pc) (place_behind code.now pc 0) (place_behind code.now pc to)) m.old }
{
    let body = behind(code, pc, 0);
    let after = behind(code, pc, to);
    let again = Again::While { at: pc };
    m.mode = Mode::Turn { again, body, after };
}

/// Begins a loop of so many turns as its value says.
pub fn begin_count<A: Answers>(
    program: &Program<'_>,
    pc: usize,
    value: &ExprCode,
    to: usize,
    m: &mut Machine,
    answers: &mut A,
) -> Result<(), NoMemory>
    requires database { A.database answers.old ≡ program.now.db.now }
    requires time { m.old.frame.env.packet.stamp < STAMP_END }
    requires mode { m.old.mode ≡ At pc }
    requires stands { slice_get program.now.code.now.ops pc ≡ Some (Loop Count value.now to) }
    ensures database { A.database answers.new ≡ program.now.db.now }
    ensures moves { Steps A.content A.told program.now (m.old, answers.old) result (m.new, answers.new) }
{
    let body = behind(program.code, pc, 0);
    let after = behind(program.code, pc, to);
    match evaluate_number(program, value, m, answers)? {
        Some(left) => {
            let again = Again::Count { left };
            m.mode = Mode::Turn { again, body, after };
            Ok(())
        }
        None => Ok(()),
    }
}

/// Begins a loop over so many bytes as its value says.
pub fn begin_size<A: Answers>(
    program: &Program<'_>,
    pc: usize,
    value: &ExprCode,
    to: usize,
    m: &mut Machine,
    answers: &mut A,
) -> Result<(), NoMemory>
    requires database { A.database answers.old ≡ program.now.db.now }
    requires time { m.old.frame.env.packet.stamp < STAMP_END }
    requires position { m.old.frame.env.at ≤ m.old.frame.env.limit }
    requires mode { m.old.mode ≡ At pc }
    requires stands { slice_get program.now.code.now.ops pc ≡ Some (Loop Size value.now to) }
    ensures database { A.database answers.new ≡ program.now.db.now }
    ensures moves { Steps A.content A.told program.now (m.old, answers.old) result (m.new, answers.new) }
{
    let body = behind(program.code, pc, 0);
    let after = behind(program.code, pc, to);
    match evaluate_number(program, value, m, answers)? {
        Some(n) => limit(n, body, after, m),
        None => Ok(()),
    }
}

/// Sets the limit so many bytes on for a loop, or ends the decoding where there are fewer.
fn limit(n: u32, body: usize, after: usize, m: &mut Machine) -> Result<(), NoMemory>
    requires { m.old.frame.env.at ≤ m.old.frame.env.limit }
    ensures { OnOk result (m.new ≡ under n body after m.old) }
{
    let old = m.frame.env.limit;
    if n > old - m.frame.env.at {
        return halt(m, Reason::Short);
    }
    m.frame.env.limit = m.frame.env.at + n;
    let again = Again::Size { old };
    m.mode = Mode::Turn { again, body, after };
    Ok(())
}
