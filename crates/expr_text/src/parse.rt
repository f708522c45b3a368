//! The machine over a whole text. What isn't kept is dropped by a call, as in `fixed`.

ghost use Rattle.std.specs.Prelude.{◌≡◌, ◌≤◌, length, Some};
ghost use Rattle.expr_text.specs.Lexing.{lexemes};
ghost use Rattle.expr_text.specs.Machine;
ghost use Rattle.expr_text.specs.Machine.{start, ended};
ghost use Rattle.expr_text.specs.Answer.{Answers};
ghost use Rattle.expr_text.specs.Parsed.{IsParsed};
ghost use Rattle.expr_text.specs.Outcome;

use crate::advance::go_over;
use crate::fail::ExprFail;
use crate::frames::Frames;
use crate::joining::join_up;
use crate::limits::MOST_EXPRESSION_BYTES;
use crate::machine::{Mode, Next, Wanted};
use crate::sizes::is_small;
use crate::state::State;
use db_model::Expr;
use std::alloc::Global;
use std::mem;

/// The expression that was read last, where one was.
fn read(mode: Mode) -> Option<Expr>
    ensures { result ≡ Machine.read mode }
{
    match mode {
        Mode::Behind(Next::Any, e) => Some(e),
        other => {
            drop(other);
            None
        }
    }
}

/// The expression, where nothing is open behind it; else the text of `len` bytes ends early.
fn finish(alloc: Global, state: &mut State, len: usize) -> Result<Expr, ExprFail>
    requires { len ≤ 1024 }
    ensures { Outcome.Told result (Outcome.at_end len (ended (Some state.old))) }
{
    let early = ExprFail::Fault {
        at: len as u32,
        code: 2,
    };
    let Some(e) = read(mem::replace(&mut state.mode, Mode::Wants(Wanted::Expression))) else {
        return Err(early);
    };
    let whole = join_up(alloc, 1, e, &mut state.stack)?;
    if state.stack.is_empty() {
        Ok(whole)
    } else {
        drop(whole);
        Err(early)
    }
}

/// The expression of a text, whatever its size, from the start; or the first fault.
fn run_from(alloc: Global, state: &mut State, text: &[u8]) -> Result<Expr, ExprFail>
    requires start { state.old ≡ start }
    requires bound { length text.now ≤ 1024 }
    ensures { Outcome.Told result (Outcome.outcome (length text.now) start (lexemes text.now)) }
{
    let mut glued = false;
    let mut rest = text;
    while rest.len() > 0 {
        let here = text.len() - rest.len();
        let next = go_over(alloc, state, rest, here, text.len(), glued)?;
        glued = next.glued;
        rest = &rest[next.size..];
    }
    finish(alloc, state, text.len())
}

/// The expression of a text, whatever its size; or the first fault.
fn run(alloc: Global, text: &[u8]) -> Result<Expr, ExprFail>
    requires { length text.now ≤ 1024 }
    ensures { Outcome.Told result (Outcome.outcome (length text.now) start (lexemes text.now)) }
{
    let mut state = State {
        mode: Mode::Wants(Wanted::Expression),
        stack: Frames::new(alloc),
    };
    let answer = run_from(alloc, &mut state, text);
    drop(state);
    answer
}

/// The expression of a text of `len` bytes, unless it has too many nodes or is too deep.
fn judge(e: Expr, len: usize) -> Result<Expr, ExprFail>
    requires { len ≤ 1024 }
    ensures { Outcome.Judged e len result }
{
    if is_small(&e) {
        return Ok(e);
    }
    drop(e);
    Err(ExprFail::Fault {
        at: len as u32,
        code: 4,
    })
}

/// The answer to a text.
fn answer(alloc: Global, text: &[u8]) -> Result<Expr, ExprFail>
    ensures { Answers text.now result }
{
    if text.len() > MOST_EXPRESSION_BYTES {
        return Err(ExprFail::Fault { at: 0, code: 4 });
    }
    match run(alloc, text) {
        Ok(e) => judge(e, text.len()),
        Err(fail) => Err(fail),
    }
}

/// The expression that a text spells, within all limits; else the place and the code of the text's first fault.
/// Works in a loop, with a stack of its own; only the depth of the expression is found by recursion.
pub fn parse_expr(alloc: Global, text: &[u8]) -> Result<Expr, ExprFail>
    ensures answer { Answers text.now result }
    ensures parsed { IsParsed text.now result }
{
    answer(alloc, text)
}
