//! What the machine does where one token is fixed, or one of few. What isn't kept is dropped by a call: a call takes a
//! value apart by functions of its types, where an end of scope writes that out again.

ghost use Rattle.std.specs.Prelude.{◌≡◌, IfOk};
ghost use Rattle.expr_text.specs.Machine;
ghost use Rattle.expr_text.specs.Machine.{now};

use crate::machine::{Mode, Next, Wanted};
use crate::token::Token;
use db_model::{Expr, NoMemory};
use sqlite_items::{Boxed, Items};
use std::alloc::Global;

/// The parenthesis behind `ispresent`.
pub fn open_present(token: Token) -> Option<Mode>
    ensures { (k : Machine.Stack) → now result k ≡ Machine.open_present k token }
{
    match token {
        Token::Open => Some(Mode::Wants(Wanted::PresentName)),
        other => {
            drop(other);
            None
        }
    }
}

/// The name behind `ispresent(`.
pub fn present_name(token: Token) -> Option<Mode>
    ensures { (k : Machine.Stack) → now result k ≡ Machine.present_name k token }
{
    match token {
        Token::Name(name) => Some(Mode::Behind(Next::Closes, Expr::IsPresent(name))),
        other => {
            drop(other);
            None
        }
    }
}

/// The parenthesis behind the name of a look-up.
pub fn open_look_up(renew: bool, token: Token) -> Option<Mode>
    ensures { (k : Machine.Stack) → now result k ≡ Machine.open_look_up renew k token }
{
    match token {
        Token::Open => Some(Mode::Wants(Wanted::TableName { renew })),
        other => {
            drop(other);
            None
        }
    }
}

/// The name of a look-up's table.
pub fn table_name(alloc: Global, renew: bool, token: Token) -> Option<Mode>
    ensures { (k : Machine.Stack) → now result k ≡ Machine.table_name renew k token }
{
    match token {
        Token::Name(table) => Some(Mode::Keys {
            table,
            renew,
            keys: Items::new(alloc),
        }),
        other => {
            drop(other);
            None
        }
    }
}

/// The number behind the comma of `int2buf`.
pub fn size(alloc: Global, e: Expr, token: Token) -> Result<Option<Mode>, NoMemory>
    ensures { (k : Machine.Stack) → IfOk result (λ mode. now mode k ≡ Machine.size e k token) }
{
    match token {
        Token::Number(size) => {
            let value = Boxed::new(alloc, e)?;
            Ok(Some(Mode::Behind(Next::Closes, Expr::ToBytes { value, size })))
        }
        other => {
            drop(other);
            drop(e);
            Ok(None)
        }
    }
}

/// The text behind the comma of `hasstring`.
pub fn searched(alloc: Global, e: Expr, token: Token) -> Result<Option<Mode>, NoMemory>
    ensures { (k : Machine.Stack) → IfOk result (λ mode. now mode k ≡ Machine.searched e k token) }
{
    match token {
        Token::Text(text) => {
            let within = Boxed::new(alloc, e)?;
            Ok(Some(Mode::Behind(Next::Closes, Expr::HasText { within, text })))
        }
        other => {
            drop(other);
            drop(e);
            Ok(None)
        }
    }
}

/// The parenthesis that closes an expression which is complete but for it.
pub fn closes(e: Expr, token: Token) -> Option<Mode>
    ensures { (k : Machine.Stack) → now result k ≡ Machine.closes e k token }
{
    match token {
        Token::Close => Some(Mode::Behind(Next::Any, e)),
        other => {
            drop(other);
            drop(e);
            None
        }
    }
}
