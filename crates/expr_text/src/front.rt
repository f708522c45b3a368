ghost use Rattle.std.specs.Prelude.{◌≡◌, ◌<◌, ◌≤◌, ◌+◌, ◌∷◌, IfOk, length};
ghost use Rattle.expr_text.specs.Lexing;
ghost use Rattle.expr_text.specs.Outcome;

use crate::lexeme::{Lexeme, Scanned};
use crate::number::number;
use crate::runs::word_run;
use crate::sign::sign;
use crate::text::text;
use crate::token::Token;
use crate::word::{one_of, protocol, variable, word};
use db_model::{NoMemory, begins_name};
use std::alloc::Global;

/// The lexeme at the front of the bytes, which are this first one and the rest.
#[tactic(auto, unfolding(crate::specs::Lexing::first))]
fn scan(alloc: Global, bytes: &[u8], first: u8, rest: &[u8]) -> Result<Scanned, NoMemory>
    requires parts { bytes.now ≡ first ∷ rest.now }
    requires bound { length bytes.now ≤ 1024 }
    ensures value { IfOk result (λ s. s ≡ Lexing.first first rest.now) }
    ensures size { IfOk result (λ s. (0 < s.size) × (s.size ≤ length bytes.now)) }
{
    if first.is_ascii_digit() {
        Ok(number(bytes))
    } else if begins_name(first) {
        word(alloc, word_run(bytes))
    } else if first == b'\'' {
        text(alloc, rest)
    } else if first == b'#' {
        protocol(alloc, word_run(rest))
    } else if first == b'$' {
        variable(alloc, rest)
    } else {
        Ok(sign(first, rest))
    }
}

/// The lexeme at the front of the bytes; `glued` says that a number ends right before.
pub fn front(alloc: Global, glued: bool, bytes: &[u8]) -> Result<Scanned, NoMemory>
    requires not_empty { 0 < length bytes.now }
    requires bound { length bytes.now ≤ 1024 }
    ensures value { IfOk result (λ s. s ≡ Outcome.front glued bytes.now) }
    ensures size { IfOk result (λ s. (0 < s.size) × (s.size ≤ length bytes.now)) }
{
    let Some((first, rest)) = bytes.split_first() else {
        return Ok(one_of(None, 1));
    };
    if glued && begins_name(*first) {
        return Ok(one_of(None, 1));
    }
    scan(alloc, bytes, *first, rest)
}

/// Whether a space byte stands at the front.
pub fn begins_with_space(bytes: &[u8]) -> bool
    ensures { result ≡ Outcome.begins_with_space bytes.now }
{
    match bytes.split_first() {
        None => false,
        Some((first, _)) => *first == b' ' || *first == b'\t' || *first == b'\n' || *first == b'\r',
    }
}

pub fn is_number(lexeme: &Lexeme) -> bool
    ensures { result ≡ Lexing.is_number lexeme.now }
{
    match lexeme {
        Lexeme::Token(Token::Number(_)) => true,
        _ => false,
    }
}
