ghost use Rattle.std.specs.Prelude.{◌≡◌, ◌<◌, ◌≤◌, ◌+◌, length};
ghost use Rattle.expr_text.specs.Lexing;

use crate::lexeme::{Lexeme, Scanned};
use crate::runs::follows;
use crate::token::{BinaryOp, Token};
use crate::word::one_of;
use db_model::Operator;

fn plain(operator: Operator) -> Option<Token>
    ensures { result ≡ Lexing.plain_sign operator }
{
    Some(Token::Operator(BinaryOp::Plain(operator)))
}

/// A sign of one byte.
#[tactic(auto, unfolding(crate::specs::Lexing::sign_of))]
fn sign_of(byte: u8) -> Option<Token>
    ensures { result ≡ Lexing.sign_of byte }
{
    match byte {
        b'(' => Some(Token::Open),
        b')' => Some(Token::Close),
        b'[' => Some(Token::OpenBracket),
        b':' => Some(Token::Colon),
        b']' => Some(Token::CloseBracket),
        b',' => Some(Token::Comma),
        b'+' => plain(Operator::Add),
        b'-' => plain(Operator::Sub),
        b'*' => plain(Operator::Mul),
        b'/' => plain(Operator::Div),
        _ => None,
    }
}

/// The sign of two bytes that begins with this one, and ends with `=`.
#[tactic(auto, unfolding(crate::specs::Lexing::equality))]
fn equality(byte: u8) -> Option<Token>
    ensures { result ≡ Lexing.equality byte }
{
    match byte {
        b'=' => plain(Operator::Eq),
        b'!' => plain(Operator::Ne),
        _ => None,
    }
}

/// A sign, of which this is the first byte.
#[tactic(auto, unfolding(crate::specs::Lexing::sign))]
pub fn sign(byte: u8, rest: &[u8]) -> Scanned
    ensures value { result ≡ Lexing.sign byte rest.now }
    ensures size { (0 < result.size) × (result.size ≤ 1 + length rest.now) }
{
    if !follows(b'=', rest) {
        return one_of(sign_of(byte), 1);
    }
    match equality(byte) {
        None => one_of(sign_of(byte), 1),
        Some(token) => Scanned {
            lexeme: Lexeme::Token(token),
            size: 2,
        },
    }
}
