ghost use Rattle.std.specs.Prelude.{◌≡◌, ◌<◌, Some, length, slice_get};
ghost use Rattle.decode_vm.specs.Program.{Steps};
ghost use Rattle.decode_vm.specs.Machine.{place_behind};
ghost use Rattle.pdl_code.specs.Does.{target, unless_so};
ghost use Rattle.pdl_code.specs.declared.code.Op.TheVariants.{NextProto, Switch, Test};
ghost use Rattle.decode_vm.specs.declared.machine.Mode.TheVariants.{At};

use crate::machine::{Machine, Mode};
use crate::program::Program;
use crate::values::{evaluate, evaluate_number, protocol_of};
use db_model::{Answers, NoMemory, STAMP_END, Way};
use encap::choose;
use expr_code::ExprCode;
use pdl_code::{Choice, ProtoCode};

/// The place so many operations behind the next one, at most the end of the code.
pub fn behind(code: &ProtoCode, pc: usize, to: usize) -> usize
    ensures { result ≡ place_behind code.now pc to }
{
    let end = code.ops.len();
    pc.saturating_add(1).saturating_add(to).min(end)
}

/// Jumps where the value is 0.
pub fn test<A: Answers>(
    program: &Program<'_>,
    pc: usize,
    value: &ExprCode,
    to: usize,
    m: &mut Machine,
    answers: &mut A,
) -> Result<(), NoMemory>
    requires database { A.database answers.old ≡ program.now.db.now }
    requires time { m.old.frame.env.packet.stamp < STAMP_END }
    requires mode { m.old.mode ≡ At pc }
    requires stands { slice_get program.now.code.now.ops pc ≡ Some (Test value.now to) }
    ensures database { A.database answers.new ≡ program.now.db.now }
    ensures moves { Steps A.content A.told program.now (m.old, answers.old) result (m.new, answers.new) }
{
    match evaluate_number(program, value, m, answers)? {
        Some(v) => {
            m.mode = Mode::At(behind(program.code, pc, skipped(v, to)));
            Ok(())
        }
        None => Ok(()),
    }
}

/// How many operations a test skips.
fn skipped(v: u32, to: usize) -> usize
    ensures { result ≡ unless_so v to }
{
    if v != 0 { 0 } else { to }
}

/// Jumps to the target of the first range that holds the value.
pub fn switch<A: Answers>(
    program: &Program<'_>,
    pc: usize,
    value: &ExprCode,
    choice: &Choice,
    m: &mut Machine,
    answers: &mut A,
) -> Result<(), NoMemory>
    requires database { A.database answers.old ≡ program.now.db.now }
    requires time { m.old.frame.env.packet.stamp < STAMP_END }
    requires mode { m.old.mode ≡ At pc }
    requires stands { slice_get program.now.code.now.ops pc ≡ Some (Switch value.now choice.now) }
    ensures database { A.database answers.new ≡ program.now.db.now }
    ensures moves { Steps A.content A.told program.now (m.old, answers.old) result (m.new, answers.new) }
{
    match evaluate_number(program, value, m, answers)? {
        Some(v) => {
            m.mode = Mode::At(behind(program.code, pc, target(choice, v)));
            Ok(())
        }
        None => Ok(()),
    }
}

/// How many operations a switch skips.
fn target(choice: &Choice, v: u32) -> usize
    ensures { result ≡ target choice.now v }
{
    match choose(choice.ranges.as_slice(), v) {
        Some(place) => match choice.targets.get(place as usize) {
            Some(to) => *to,
            None => choice.otherwise,
        },
        None => choice.otherwise,
    }
}

/// Names the next protocol.
pub fn next_proto<A: Answers>(
    program: &Program<'_>,
    pc: usize,
    value: &ExprCode,
    m: &mut Machine,
    answers: &mut A,
) -> Result<(), NoMemory>
    requires database { A.database answers.old ≡ program.now.db.now }
    requires time { m.old.frame.env.packet.stamp < STAMP_END }
    requires mode { m.old.mode ≡ At pc }
    requires stands { slice_get program.now.code.now.ops pc ≡ Some (NextProto value.now) }
    ensures database { A.database answers.new ≡ program.now.db.now }
    ensures moves { Steps A.content A.told program.now (m.old, answers.old) result (m.new, answers.new) }
{
    match evaluate(program, value, m, answers)? {
        Some(v) => {
            m.mode = Mode::Leaving(Way::Chose(protocol_of(&v)));
            Ok(())
        }
        None => Ok(()),
    }
}
