ghost use Rattle.std.specs.Prelude.{◌≡◌, ◌<◌, IfOk};
ghost use Rattle.decode_vm.specs.Program.{IsRunning, StepsOrEnds};
ghost use Rattle.decode_vm.specs.Run.{Closed, HasRun, IsPlaced, RunEnds};
ghost use Rattle.decode_vm.specs.Sound.{Sound};

use crate::act::act;
use crate::machine::{Machine, Mode};
use crate::program::Program;
use crate::resume::resume;
use crate::room::no_nodes;
use crate::turn::turn;
use db_model::{Answers, CheckedDb, Frame, NoMemory, Nodes, STAMP_END, Way};
use pdl_code::ProtoCode;
use sqlite_items::Items;
use std::alloc::Global;

/// How the list of a protocol ended.
#[derive(Drop)]
pub struct Ended {
    pub way: Way,
    pub nodes: Nodes,
    pub frame: Frame,
}

/// Runs the list of a protocol, from the position on. NoMemory: some first of its questions were asked.
pub fn run<A: Answers>(
    alloc: Global,
    db: &CheckedDb,
    code: &ProtoCode,
    frame: Frame,
    answers: &mut A,
) -> Result<Ended, NoMemory>
    requires database { A.database answers.old ≡ db.now }
    requires time { frame.env.packet.stamp < STAMP_END }
    requires placed { IsPlaced frame }
    requires runs { HasRun db.now code.now frame }
    ensures database { A.database answers.new ≡ db.now }
    ensures ends { RunEnds db.now code.now frame
        (A.content answers.old) (A.told answers.old) result (A.content answers.new) (A.told answers.new) }
    ensures packet { IfOk result (λ e. e.frame.env.packet ≡ frame.env.packet) }
    ensures placed { IfOk result (λ e. IsPlaced e.frame) }
{
    let program = Program { alloc, db, code };
    let mut m = Machine {
        mode: Mode::At(0),
        held: Items::new(alloc),
        nodes: no_nodes(alloc),
        frame,
    };
    loop {
        if let Some(way) = step(&program, &mut m, answers)? {
            return Ok(finish(way, m));
        }
    }
}

fn finish(way: Way, m: Machine) -> Ended
    ensures { result ≡ record { way = way; nodes = m.nodes; frame = m.frame } }
{
    let Machine { nodes, frame, .. } = m;
    Ended { way, nodes, frame }
}

/// Does what comes next. The way in which the whole list ended, where it did.
fn step<A: Answers>(
    program: &Program<'_>,
    m: &mut Machine,
    answers: &mut A,
) -> Result<Option<Way>, NoMemory>
    requires database { A.database answers.old ≡ program.now.db.now }
    requires time { m.old.frame.env.packet.stamp < STAMP_END }
    requires sound { Sound m.old }
    requires running { IsRunning A.content A.told program.now (m.old, answers.old) }
    ensures database { A.database answers.new ≡ program.now.db.now }
    ensures steps { StepsOrEnds A.content A.told program.now (m.old, answers.old) result (m.new, answers.new) }
{
    match m.mode {
        Mode::At(pc) => {
            act(program, pc, m, answers)?;
            Ok(None)
        }
        Mode::Turn { again, body, after } => {
            turn(program, again, body, after, m, answers)?;
            Ok(None)
        }
        Mode::Leaving(way) => close(way, m),
    }
}

/// Goes on in the list around the innermost one. The way, where there is none.
fn close(way: Way, m: &mut Machine) -> Result<Option<Way>, NoMemory>
    requires { Sound m.old }
    ensures { Closed way m.old result m.new }
{
    match m.held.pop() {
        Some(held) => {
            resume(held, way, m)?;
            Ok(None)
        }
        None => Ok(Some(way)),
    }
}
