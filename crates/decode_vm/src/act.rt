ghost use Rattle.std.specs.Prelude.{◌≡◌, ◌<◌, IsSome, OnOk, Some, slice_get};
ghost use Rattle.decode_vm.specs.Program.{IsRunning, Steps};
ghost use Rattle.decode_vm.specs.Machine.{opened, place_behind, way_of};
ghost use Rattle.decode_vm.specs.Sound.{Sound};
ghost use Rattle.decode_vm.specs.declared.machine.Mode.TheVariants.{At};
ghost use Rattle.pdl_code.specs.declared.code.BlockStart.{BlockStart};
ghost use Rattle.pdl_code.specs.declared.code.Op.TheVariants.{SizedField};

use crate::choose::{behind, next_proto, switch, test};
use crate::enter::{begin_count, begin_size, begin_while, open};
use crate::field::place_field;
use crate::machine::{Machine, Mode};
use crate::program::Program;
use crate::set::assign;
use crate::update::add_entry;
use crate::values::evaluate_number;
use db_model::{Answers, FieldKind, LoopControl, LoopKind, NoMemory, STAMP_END, Way};
use expr_code::ExprCode;
use pdl_code::Op;

/// Does the operation at a place.
pub fn act<A: Answers>(
    program: &Program<'_>,
    pc: usize,
    m: &mut Machine,
    answers: &mut A,
) -> Result<(), NoMemory>
    requires database { A.database answers.old ≡ program.now.db.now }
    requires time { m.old.frame.env.packet.stamp < STAMP_END }
    requires sound { Sound m.old }
    requires mode { m.old.mode ≡ At pc }
    requires running { IsRunning A.content A.told program.now (m.old, answers.old) }
    ensures database { A.database answers.new ≡ program.now.db.now }
    ensures moves { Steps A.content A.told program.now (m.old, answers.old) result (m.new, answers.new) }
{
    let Some(op) = program.code.ops.get(pc) else {
        unreachable!()
    };
    match op {
        Op::End => {
            m.mode = Mode::Leaving(Way::Next);
            Ok(())
        }
        Op::Leave { kind } => {
            m.mode = Mode::Leaving(way_of(*kind));
            Ok(())
        }
        Op::Jump { to } => {
            m.mode = Mode::At(behind(program.code, pc, *to));
            Ok(())
        }
        Op::Field { number, kind } => {
            place_field(
                program.alloc,
                *number,
                kind.get(),
                0,
                behind(program.code, pc, 0),
                m,
            )
        }
        Op::SizedField { number, size } => { sized_field(program, pc, *number, size, m, answers) }
        Op::Assign { variable, value } => { assign(program, pc, *variable, value, m, answers) }
        Op::Update(update) => add_entry(program, pc, update, m, answers),
        Op::NextProto { value } => next_proto(program, pc, value, m, answers),
        Op::Test { value, to } => test(program, pc, value, *to, m, answers),
        Op::Switch { value, choice } => switch(program, pc, value, choice, m, answers),
        Op::Block { number, after } => {
            let body = behind(program.code, pc, 0);
            open(
                program.alloc,
                *number,
                body,
                behind(program.code, pc, *after),
                m,
            )
        }
        Op::Include { block } => include(program, pc, *block, m),
        Op::Loop { kind, value, after } => match kind {
            LoopKind::While => {
                begin_while(program.code, pc, *after, m);
                Ok(())
            }
            LoopKind::Count => begin_count(program, pc, value, *after, m, answers),
            LoopKind::Size => begin_size(program, pc, value, *after, m, answers),
        },
    }
}

/// A field whose size is a value.
fn sized_field<A: Answers>(
    program: &Program<'_>,
    pc: usize,
    number: u32,
    size: &ExprCode,
    m: &mut Machine,
    answers: &mut A,
) -> Result<(), NoMemory>
    requires database { A.database answers.old ≡ program.now.db.now }
    requires time { m.old.frame.env.packet.stamp < STAMP_END }
    requires sound { Sound m.old }
    requires mode { m.old.mode ≡ At pc }
    requires stands { slice_get program.now.code.now.ops pc ≡ Some (SizedField number size.now) }
    ensures database { A.database answers.new ≡ program.now.db.now }
    ensures moves { Steps A.content A.told program.now (m.old, answers.old) result (m.new, answers.new) }
{
    match evaluate_number(program, size, m, answers)? {
        Some(n) => {
            let after = behind(program.code, pc, 0);
            place_field(program.alloc, number, &FieldKind::Variable, n, after, m)
        }
        None => Ok(()),
    }
}

/// Begins the named block at this place of the protocol.
fn include(program: &Program<'_>, pc: usize, block: usize, m: &mut Machine) -> Result<(), NoMemory>
    requires { IsSome (slice_get program.now.code.now.blocks block) }
    ensures { (start : BlockStart) → slice_get program.now.code.now.blocks block ≡ Some start
        → OnOk result (m.new ≡ opened start.number start.at (place_behind program.now.code.now pc 0) m.old) }
{
    let Some(start) = program.code.blocks.get(block) else {
        unreachable!()
    };
    open(
        program.alloc,
        start.number,
        start.at,
        behind(program.code, pc, 0),
        m,
    )
}

/// How a list ends that leaves a turn or a loop.
fn way_of(kind: LoopControl) -> Way
    ensures { result ≡ way_of kind }
{
    match kind {
        LoopControl::Break => Way::Break,
        LoopControl::Continue => Way::Continue,
    }
}
