ghost use Rattle.std.specs.Prelude.{◌≡◌, ◌<◌, OnOk, slice_get};
ghost use Rattle.decode_vm.specs.Program.{IsRunning, Steps};
ghost use Rattle.decode_vm.specs.Machine.{counted, over, restored, sized, spent, tested};
ghost use Rattle.decode_vm.specs.declared.machine.Again.TheVariants.{While};
ghost use Rattle.decode_vm.specs.declared.machine.Mode.TheVariants.{Turn};

use crate::machine::{Again, Held, Machine, Mode};
use crate::program::Program;
use crate::values::{evaluate_number, halt};
use db_model::{Answers, NoMemory, Reason, STAMP_END};
use pdl_code::Op;

/// Begins the next turn of a loop, or goes on behind the loop.
pub fn turn<A: Answers>(
    program: &Program<'_>,
    again: Again,
    body: usize,
    after: usize,
    m: &mut Machine,
    answers: &mut A,
) -> Result<(), NoMemory>
    requires database { A.database answers.old ≡ program.now.db.now }
    requires time { m.old.frame.env.packet.stamp < STAMP_END }
    requires mode { m.old.mode ≡ Turn again body after }
    requires running { IsRunning A.content A.told program.now (m.old, answers.old) }
    ensures database { A.database answers.new ≡ program.now.db.now }
    ensures moves { Steps A.content A.told program.now (m.old, answers.old) result (m.new, answers.new) }
{
    match again {
        Again::Count { left } => count(left, body, after, m),
        Again::While { at } => test(program, at, body, after, m, answers),
        Again::Size { old } => fill(old, body, after, m),
    }
}

fn count(left: u32, body: usize, after: usize, m: &mut Machine) -> Result<(), NoMemory>
    ensures { OnOk result (m.new ≡ counted left body after m.old) }
{
    if left == 0 {
        leave(Again::Count { left }, after, m);
        Ok(())
    } else {
        spend(Again::Count { left: left - 1 }, body, after, m)
    }
}

fn fill(old: u32, body: usize, after: usize, m: &mut Machine) -> Result<(), NoMemory>
    ensures { OnOk result (m.new ≡ sized old body after m.old) }
{
    if m.frame.env.at < m.frame.env.limit {
        spend(Again::Size { old }, body, after, m)
    } else {
        leave(Again::Size { old }, after, m);
        Ok(())
    }
}

/// The loop stands at the place `at`.
fn test<A: Answers>(
    program: &Program<'_>,
    at: usize,
    body: usize,
    after: usize,
    m: &mut Machine,
    answers: &mut A,
) -> Result<(), NoMemory>
    requires database { A.database answers.old ≡ program.now.db.now }
    requires time { m.old.frame.env.packet.stamp < STAMP_END }
    requires mode { m.old.mode ≡ Turn (While at) body after }
    requires running { IsRunning A.content A.told program.now (m.old, answers.old) }
    ensures database { A.database answers.new ≡ program.now.db.now }
    ensures moves { Steps A.content A.told program.now (m.old, answers.old) result (m.new, answers.new) }
{
    let Some(Op::Loop { value, .. }) = program.code.ops.get(at) else {
        unreachable!()
    };
    match evaluate_number(program, value, m, answers)? {
        Some(v) => go_on(v, at, body, after, m),
        None => Ok(()),
    }
}

/// A turn where the test isn't 0.
fn go_on(v: u32, at: usize, body: usize, after: usize, m: &mut Machine) -> Result<(), NoMemory>
    ensures { OnOk result (m.new ≡ tested v at body after m.old) }
{
    if v == 0 {
        leave(Again::While { at }, after, m);
        Ok(())
    } else {
        spend(Again::While { at }, body, after, m)
    }
}

/// Begins a turn, or ends the decoding where none is left.
fn spend(again: Again, body: usize, after: usize, m: &mut Machine) -> Result<(), NoMemory>
    ensures { OnOk result (m.new ≡ spent again body after m.old) }
{
    if m.frame.env.turns == 0 {
        halt(m, Reason::Turns)?;
        restore(again, m);
        return Ok(());
    }
    m.frame.env.turns -= 1;
    m.held.push(Held::Loop { again, body, after })?;
    m.mode = Mode::At(body);
    Ok(())
}

/// Goes on behind a loop.
pub fn leave(again: Again, after: usize, m: &mut Machine)
    ensures { m.new ≡ over again after m.old }
{
    m.mode = Mode::At(after);
    restore(again, m);
}

/// Sets the limit that was there before a loop.
pub fn restore(again: Again, m: &mut Machine)
    ensures { m.new ≡ restored again m.old }
{
    match again {
        Again::Size { old } => m.frame.env.limit = old,
        Again::Count { .. } | Again::While { .. } => {}
    }
}
