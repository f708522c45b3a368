//! The expressions that values are.

ghost use Rattle.std.specs.Prelude.{◌≡◌, IfOk, Some};
ghost use Rattle.db_load.specs.Parsed;
ghost use Rattle.expr_text.specs.Parsed.{parsed};

use db_model::{Bytes, Expr, Literal, Name, NoMemory};
use expr_text::{ExprFail, parse_expr};
use std::alloc::Global;

/// The expression that a value is, if it is one.
pub fn parsed(alloc: Global, value: &[u8]) -> Result<Option<Expr>, NoMemory>
    ensures { IfOk result (λ e. e ≡ parsed value.now) }
{
    match parse_expr(alloc, value) {
        Ok(e) => Ok(Some(e)),
        Err(ExprFail::Fault { .. }) => Ok(None),
        Err(ExprFail::NoMemory) => Err(NoMemory),
    }
}

/// What an expression is as a literal.
fn literal_in(alloc: Global, e: &Expr) -> Result<Option<Literal>, NoMemory>
    ensures { IfOk result (λ r. r ≡ Parsed.literal_in (Some e.now)) }
{
    match e {
        Expr::Number(n) => Ok(Some(Literal::Number(*n))),
        Expr::Text(bytes) => Ok(Some(Literal::Text(bytes.clone()?))),
        Expr::Protocol(name) => Ok(Some(Literal::Protocol(Name::copy_of(alloc, name.as_slice())?))),
        _ => Ok(None),
    }
}

/// The literal that a value is, if it is one.
pub fn literal_of(alloc: Global, value: &[u8]) -> Result<Option<Literal>, NoMemory>
    ensures { IfOk result (λ r. r ≡ Parsed.literal_of value.now) }
{
    match parsed(alloc, value)? {
        Some(e) => {
            let literal = literal_in(alloc, &e);
            drop(e);
            literal
        }
        None => Ok(None),
    }
}

/// The text that a value is in quotes, if it is one.
pub fn quoted_of(alloc: Global, value: &[u8]) -> Result<Option<Bytes>, NoMemory>
    ensures { IfOk result (λ r. r ≡ Parsed.quoted_of value.now) }
{
    match literal_of(alloc, value)? {
        Some(Literal::Text(bytes)) => Ok(Some(bytes)),
        _ => Ok(None),
    }
}
