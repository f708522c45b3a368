ghost use Rattle.std.specs.Prelude.{◌≡◌, ◌<◌, ◌≤◌, ◌+◌, length};
ghost use Rattle.std.specs.Char.{digit_value, is_ascii_digit};
ghost use Rattle.expr_text.specs.Lexing;
ghost use Rattle.expr_text.specs.Numbers;

use crate::lexeme::{Lexeme, Scanned};
use crate::runs::{digits_run, hex_run};
use crate::token::Token;

/// The value of a digit or a letter, and 36 for any other byte.
pub fn digit(byte: u8) -> u8
    ensures value { result ≡ digit_value byte }
    ensures bound { result ≤ 36 }
{
    match byte {
        b'0'..=b'9' => byte - 48,
        b'A'..=b'Z' => byte - 55,
        b'a'..=b'z' => byte - 87,
        _ => 36,
    }
}

fn decimal_value(digits: &[u8]) -> u64
    requires { length digits.now ≤ 10 }
    ensures { result ≡ Lexing.value_from 10 0 digits.now }
{
    let mut n: u64 = 0;
    for d in digits {
        n = n * 10 + u64::from(digit(*d));
    }
    n
}

fn hex_value(digits: &[u8]) -> u64
    requires { length digits.now ≤ 8 }
    ensures { result ≡ Lexing.value_from 16 0 digits.now }
{
    let mut n: u64 = 0;
    for d in digits {
        n = n * 16 + u64::from(digit(*d));
    }
    n
}

fn number_or_fault(value: u64) -> Lexeme
    ensures { result ≡ Lexing.number_or_fault value }
{
    match u32::try_from(value) {
        Ok(n) => Lexeme::Token(Token::Number(n)),
        Err(_) => Lexeme::TooGreat,
    }
}

/// A number of these decimal digits.
#[tactic(auto, unfolding(crate::specs::Lexing::numeral))]
fn decimal(digits: &[u8]) -> Lexeme
    ensures { result ≡ Lexing.numeral 10 10 digits.now }
{
    if digits.len() > 10 {
        return Lexeme::TooGreat;
    }
    number_or_fault(decimal_value(digits))
}

/// A number of these hex digits.
#[tactic(auto, unfolding(crate::specs::Lexing::numeral))]
fn hexadecimal(digits: &[u8]) -> Lexeme
    ensures { result ≡ Lexing.numeral 16 8 digits.now }
{
    if digits.len() > 8 {
        return Lexeme::TooGreat;
    }
    number_or_fault(hex_value(digits))
}

/// The number at the front of bytes that begin with a decimal digit.
#[tactic(auto, unfolding(crate::specs::Lexing::number))]
pub fn number(bytes: &[u8]) -> Scanned
    requires { 0 < length (Lexing.run is_ascii_digit bytes.now) }
    ensures value { result ≡ Lexing.number bytes.now }
    ensures size { (0 < result.size) × (result.size ≤ length bytes.now) }
{
    let hex = hex_run(bytes);
    if hex.len() > 0 {
        return Scanned {
            lexeme: hexadecimal(hex),
            size: 2 + hex.len(),
        };
    }
    let digits = digits_run(bytes);
    Scanned {
        lexeme: decimal(digits),
        size: digits.len(),
    }
}

/// The number that a lexeme is, where it has so many bytes.
fn value_of_all(size: usize, scanned: &Scanned) -> Option<u32>
    ensures { result ≡ Numbers.value_of_all size scanned.now }
{
    if scanned.size != size {
        return None;
    }
    match &scanned.lexeme {
        Lexeme::Token(Token::Number(n)) => Some(*n),
        _ => None,
    }
}

/// The number that a whole text is: one token of an expression, in decimal or in hex behind `0x`.
#[tactic(auto, unfolding(crate::specs::Numbers::number_of))]
pub fn number_of(text: &[u8]) -> Option<u32>
    ensures { result ≡ Numbers.number_of text.now }
{
    match text.split_first() {
        Some((first, _)) if first.is_ascii_digit() => value_of_all(text.len(), &number(text)),
        _ => None,
    }
}
