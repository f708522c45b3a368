ghost use Rattle.std.specs.Prelude.{◌≡◌, ◌<◌, ◌≤◌, ◌+◌, ℕ, List, [], ◌∷◌, IfOk, length};
ghost use Rattle.expr_text.specs.Lexing;
ghost use Rattle.expr_text.specs.Stages;

use crate::lexeme::{Lexeme, Scanned};
use crate::number::digit;
use crate::token::Token;
use db_model::{Bytes, NoMemory};
use std::alloc::Global;

/// Where in a text the next byte stands.
#[derive(Clone, Copy)]
pub enum Stage {
    Plain,
    /// Behind a `\`.
    Escape,
    /// At the first digit behind `\x`.
    High,
    /// At the second one, with the value of the first.
    Low(u8),
}

/// What a byte of a text does.
#[derive(Clone, Copy)]
pub enum Turn {
    /// It ends the spelling of this byte.
    Add(u8),
    Go(Stage),
    Close,
    /// No text has it there.
    Wrong,
}

#[tactic(auto, unfolding(crate::specs::Lexing::plain))]
fn plain(byte: u8) -> Turn
    ensures value { (w : List ℕ) → (n : ℕ) → (bs : List ℕ) → Lexing.plain w n (byte ∷ bs)
        ≡ Stages.turned result w n bs }
    ensures stage { Stages.IsTurn result }
{
    if byte == b'\'' {
        Turn::Close
    } else if byte == b'\\' {
        Turn::Go(Stage::Escape)
    } else if 0x20 <= byte && byte <= 0x7e {
        Turn::Add(byte)
    } else {
        Turn::Wrong
    }
}

#[tactic(auto, unfolding(crate::specs::Lexing::escape))]
fn escape(byte: u8) -> Turn
    ensures value { (w : List ℕ) → (n : ℕ) → (bs : List ℕ) → Lexing.escape w n (byte ∷ bs)
        ≡ Stages.turned result w n bs }
    ensures stage { Stages.IsTurn result }
{
    if byte == b'\\' || byte == b'\'' {
        Turn::Add(byte)
    } else if byte == b'x' {
        Turn::Go(Stage::High)
    } else {
        Turn::Wrong
    }
}

#[tactic(auto, unfolding(crate::specs::Lexing::high))]
fn high(byte: u8) -> Turn
    ensures value { (w : List ℕ) → (n : ℕ) → (bs : List ℕ) → Lexing.high w n (byte ∷ bs) ≡ Stages.turned result w n bs }
    ensures stage { Stages.IsTurn result }
{
    if byte.is_ascii_hexdigit() {
        Turn::Go(Stage::Low(digit(byte)))
    } else {
        Turn::Wrong
    }
}

#[tactic(auto, unfolding(crate::specs::Lexing::low))]
fn low(high: u8, byte: u8) -> Turn
    requires { high < 16 }
    ensures value { (w : List ℕ) → (n : ℕ) → (bs : List ℕ) → Lexing.low w high n (byte ∷ bs)
        ≡ Stages.turned result w n bs }
    ensures stage { Stages.IsTurn result }
{
    if byte.is_ascii_hexdigit() {
        Turn::Add(16 * high + digit(byte))
    } else {
        Turn::Wrong
    }
}

fn turn_by(stage: Stage, byte: u8) -> Turn
    requires { Stages.IsStage stage }
    ensures value { (w : List ℕ) → (n : ℕ) → (bs : List ℕ) → Stages.resume stage w n (byte ∷ bs)
        ≡ Stages.turned result w n bs }
    ensures stage { Stages.IsTurn result }
{
    match stage {
        Stage::Plain => plain(byte),
        Stage::Escape => escape(byte),
        Stage::High => high(byte),
        Stage::Low(value) => low(value, byte),
    }
}

/// The text behind a first quote.
#[tactic(auto, unfolding(crate::specs::Lexing::plain))]
pub fn text(alloc: Global, bytes: &[u8]) -> Result<Scanned, NoMemory>
    requires { length bytes.now ≤ 1024 }
    ensures value { IfOk result (λ s. s ≡ Lexing.plain [] 1 bytes.now) }
    ensures size { IfOk result (λ s. (0 < s.size) × (s.size ≤ 1 + length bytes.now)) }
{
    let mut text = Vec::new(alloc);
    let mut stage = Stage::Plain;
    let mut size = 1;
    let mut left = bytes;
    while let Some((byte, rest)) = left.split_first() {
        match turn_by(stage, *byte) {
            Turn::Add(added) => {
                text.push(added)?;
                stage = Stage::Plain;
            }
            Turn::Go(next) => stage = next,
            Turn::Close => {
                let lexeme = Lexeme::Token(Token::Text(Bytes::from_vec(text)));
                return Ok(Scanned {
                    lexeme,
                    size: size + 1,
                });
            }
            Turn::Wrong => {
                return Ok(Scanned {
                    lexeme: Lexeme::Nothing,
                    size,
                });
            }
        }
        size += 1;
        left = rest;
    }
    Ok(Scanned {
        lexeme: Lexeme::Unfinished,
        size,
    })
}
