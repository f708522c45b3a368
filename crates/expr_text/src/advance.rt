ghost use Rattle.std.specs.Prelude.{◌≡◌, ◌<◌, ◌≤◌, ℕ, length};
ghost use Rattle.expr_text.specs.Outcome;
ghost use Rattle.expr_text.specs.declared.lexeme.Lexeme.TheVariants as Lexeme;

use crate::fail::ExprFail;
use crate::front::{begins_with_space, front, is_number};
use crate::lexeme::Lexeme;
use crate::state::State;
use crate::step::step;
use crate::token::Token;
use db_model::Bytes;
use std::alloc::Global;

/// What stands behind one lexeme or one space byte.
#[derive(Clone, Copy)]
pub struct Advance {
    /// How many bytes were taken.
    pub size: usize,
    /// A number ends right before.
    pub glued: bool,
}

/// Takes a token.
fn take(alloc: Global, state: &mut State, token: Token, at: u32) -> Result<(), ExprFail>
    ensures { (n : ℕ) → Outcome.Handled n at state.old (Lexeme.Token token) result state.new }
{
    if step(alloc, state, token)? {
        return Ok(());
    }
    Err(ExprFail::Fault { at, code: 1 })
}

/// A text that the end cuts off: where a text can stand the whole ends early, else it is at fault itself.
fn unfinished(alloc: Global, state: &mut State, at: u32, end: u32) -> Result<(), ExprFail>
    ensures { Outcome.Handled end at state.old Lexeme.Unfinished result state.new }
{
    let text = Token::Text(Bytes::from_vec(Vec::new(alloc)));
    if step(alloc, state, text)? {
        return Err(ExprFail::Fault { at: end, code: 2 });
    }
    Err(ExprFail::Fault { at, code: 1 })
}

/// Takes one lexeme, which stands at `at` in a text that ends at `end`.
fn handle(
    alloc: Global,
    state: &mut State,
    lexeme: Lexeme,
    at: u32,
    end: u32,
) -> Result<(), ExprFail>
    ensures { Outcome.Handled end at state.old lexeme result state.new }
{
    match lexeme {
        Lexeme::Token(token) => take(alloc, state, token, at),
        Lexeme::Nothing => Err(ExprFail::Fault { at, code: 1 }),
        Lexeme::TooGreat => Err(ExprFail::Fault { at, code: 3 }),
        Lexeme::Unfinished => unfinished(alloc, state, at, end),
    }
}

/// Goes over one space byte or one lexeme of what is left, which begins at `here` in a text of `len` bytes.
pub fn go_over(
    alloc: Global,
    state: &mut State,
    rest: &[u8],
    here: usize,
    len: usize,
    glued: bool,
) -> Result<Advance, ExprFail>
    requires not_empty { 0 < length rest.now }
    requires rest { length rest.now ≤ 1024 }
    requires here { here ≤ 1024 }
    requires bound { len ≤ 1024 }
    ensures { Outcome.Advanced len here glued state.old rest.now result state.new }
{
    if begins_with_space(rest) {
        return Ok(Advance {
            size: 1,
            glued: false,
        });
    }
    let scanned = front(alloc, glued, rest)?;
    let size = scanned.size;
    let glued = is_number(&scanned.lexeme);
    match handle(alloc, state, scanned.lexeme, here as u32, len as u32) {
        Ok(_) => Ok(Advance { size, glued }),
        Err(fail) => Err(fail),
    }
}
