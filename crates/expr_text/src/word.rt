ghost use Rattle.std.specs.Prelude.{◌≡◌, ◌<◌, ◌≤◌, ◌+◌, ◌-◌, IfOk, length, drop};
ghost use Rattle.db_model.specs.Name.{reserved};
ghost use Rattle.expr_text.specs.Lexing;

use crate::lexeme::{Lexeme, Scanned};
use crate::runs::{follows, word_run};
use crate::token::{BinaryOp, Call, Token};
use db_model::{Name, NoMemory, Operator, ReservedWord, is_name, reserved};
use std::alloc::Global;

/// The token of a reserved word.
fn token_of(word: ReservedWord) -> Token
    ensures { result ≡ Lexing.token_of word }
{
    match word {
        ReservedWord::Or => Token::Operator(BinaryOp::Or),
        ReservedWord::And => Token::Operator(BinaryOp::And),
        ReservedWord::Not => Token::Not,
        ReservedWord::Lt => Token::Operator(BinaryOp::Plain(Operator::Lt)),
        ReservedWord::Le => Token::Operator(BinaryOp::Plain(Operator::Le)),
        ReservedWord::Gt => Token::Operator(BinaryOp::Plain(Operator::Gt)),
        ReservedWord::Ge => Token::Operator(BinaryOp::Plain(Operator::Ge)),
        ReservedWord::Mod => Token::Operator(BinaryOp::Plain(Operator::Mod)),
        ReservedWord::BitAnd => Token::Operator(BinaryOp::Plain(Operator::BitAnd)),
        ReservedWord::BitOr => Token::Operator(BinaryOp::Plain(Operator::BitOr)),
        ReservedWord::ToNumber => Token::Call(Call::ToNumber),
        ReservedWord::LengthOf => Token::Call(Call::LengthOf),
        ReservedWord::ToBytes => Token::Call(Call::ToBytes),
        ReservedWord::HasText => Token::Call(Call::HasText),
        ReservedWord::IsPresent => Token::IsPresent,
        ReservedWord::LookUp => Token::LookUp { renew: false },
        ReservedWord::RenewingLookUp => Token::LookUp { renew: true },
    }
}

fn token_of_word(word: &[u8]) -> Option<Token>
    ensures { result ≡ Lexing.token_of_word (reserved word.now) }
{
    match reserved(word) {
        None => None,
        Some(word) => Some(token_of(word)),
    }
}

/// A token of this size, or a byte that begins none.
pub fn one_of(token: Option<Token>, size: usize) -> Scanned
    ensures value { result ≡ Lexing.one_of token size }
    ensures size { result.size ≡ size }
{
    match token {
        None => Scanned {
            lexeme: Lexeme::Nothing,
            size,
        },
        Some(token) => Scanned {
            lexeme: Lexeme::Token(token),
            size,
        },
    }
}

/// A run of letters, digits and `_`.
#[tactic(auto, unfolding(crate::specs::Lexing::word))]
pub fn word(alloc: Global, word: &[u8]) -> Result<Scanned, NoMemory>
    ensures value { IfOk result (λ s. s ≡ Lexing.word word.now) }
    ensures size { IfOk result (λ s. s.size ≡ length word.now) }
{
    if is_name(word) {
        let name = Name::copy_of(alloc, word)?;
        return Ok(one_of(Some(Token::Name(name)), word.len()));
    }
    Ok(one_of(token_of_word(word), word.len()))
}

/// What stands behind a `#`.
#[tactic(auto, unfolding(crate::specs::Lexing::protocol))]
pub fn protocol(alloc: Global, name: &[u8]) -> Result<Scanned, NoMemory>
    requires { length name.now ≤ 1024 }
    ensures value { IfOk result (λ s. s ≡ Lexing.protocol name.now) }
    ensures size { IfOk result (λ s. s.size ≡ 1 + length name.now) }
{
    let size = 1 + name.len();
    if is_name(name) {
        let name = Name::copy_of(alloc, name)?;
        return Ok(one_of(Some(Token::Protocol(name)), size));
    }
    Ok(one_of(None, size))
}

/// A column of a table, where a `.` and a name stand right behind the name of a variable; else the variable.
#[tactic(auto, unfolding(crate::specs::Lexing::column))]
fn column(alloc: Global, table: &[u8], rest: &[u8], name: &[u8]) -> Result<Scanned, NoMemory>
    requires not_empty { 0 < length table.now }
    requires table_bound { length table.now ≤ 64 }
    requires within { length name.now ≤ length rest.now - 1 }
    requires bound { length rest.now ≤ 1024 }
    ensures value { IfOk result (λ s. s ≡ Lexing.column table.now rest.now name.now) }
    ensures size { IfOk result (λ s. (0 < s.size) × (s.size ≤ 1 + (length table.now + length rest.now))) }
{
    let variable = Name::copy_of(alloc, table)?;
    if follows(b'.', rest) && is_name(name) {
        let column = Name::copy_of(alloc, name)?;
        return Ok(Scanned {
            lexeme: Lexeme::Token(Token::Column {
                table: variable,
                column,
            }),
            size: 2 + table.len() + name.len(),
        });
    }
    Ok(Scanned {
        lexeme: Lexeme::Token(Token::Variable(variable)),
        size: 1 + table.len(),
    })
}

fn behind_first(bytes: &[u8]) -> &[u8]
    ensures value { result.now ≡ drop 1 bytes.now }
    ensures size { length result.now ≡ length bytes.now - 1 }
{
    match bytes.split_first() {
        None => bytes,
        Some((_, rest)) => rest,
    }
}

/// What stands behind a `$`.
#[tactic(auto, unfolding(crate::specs::Lexing::variable))]
pub fn variable(alloc: Global, bytes: &[u8]) -> Result<Scanned, NoMemory>
    requires { length bytes.now ≤ 1024 }
    ensures value { IfOk result (λ s. s ≡ Lexing.variable bytes.now) }
    ensures size { IfOk result (λ s. (0 < s.size) × (s.size ≤ 1 + length bytes.now)) }
{
    let name = word_run(bytes);
    if !is_name(name) {
        return Ok(one_of(None, 1));
    }
    let rest = &bytes[name.len()..];
    column(alloc, name, rest, word_run(behind_first(rest)))
}
