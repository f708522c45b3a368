//! Operators that are joined with their operands. What isn't kept is dropped by a call, as in `fixed`; of two boxes the
//! second is asked for before the first is looked at, so that one failure alone has anything to drop.

ghost use Rattle.std.specs.Prelude.{◌≡◌, IfOk};
ghost use Rattle.db_model.specs.declared.expression.Expr.TheVariants as Expr;
ghost use Rattle.expr_text.specs.Tokens;
ghost use Rattle.expr_text.specs.Machine;
ghost use Rattle.expr_text.specs.Machine.{joined};

use crate::frames::Frames;
use crate::machine::{Begun, Frame};
use crate::token::BinaryOp;
use db_model::{Expr, NoMemory};
use sqlite_items::{Boxed, Items};
use std::alloc::Global;

/// Two parts of an expression.
pub fn both(alloc: Global, a: Expr, b: Expr) -> Result<(Boxed<Expr>, Boxed<Expr>), NoMemory>
    ensures { IfOk result (λ parts. (parts.0 ≡ a) × (parts.1 ≡ b)) }
{
    let a = Boxed::new(alloc, a);
    let b = Boxed::new(alloc, b)?;
    Ok((a?, b))
}

/// What an operator makes of its two operands.
fn joined_by(alloc: Global, operator: BinaryOp, left: Expr, right: Expr) -> Result<Expr, NoMemory>
    ensures { IfOk result (λ e. e ≡ Tokens.joined_by operator left right) }
{
    let (left, right) = both(alloc, left, right)?;
    Ok(match operator {
        BinaryOp::Or => Expr::Or(left, right),
        BinaryOp::And => Expr::And(left, right),
        BinaryOp::Plain(operator) => Expr::Binary(operator, left, right),
    })
}

/// What an operator makes of the one part before it and the expression behind it.
fn operated(
    alloc: Global,
    operator: BinaryOp,
    before: Items<Expr>,
    e: Expr,
) -> Result<Expr, NoMemory>
    ensures { IfOk result (λ built. built ≡ Machine.operated operator before e) }
{
    let mut before = before;
    match before.pop() {
        Some(left) if before.is_empty() => joined_by(alloc, operator, left, e),
        other => {
            drop(other);
            Ok(e)
        }
    }
}

/// What an operator or a `not` makes of the expression behind it.
fn build(alloc: Global, frame: Frame, e: Expr) -> Result<Expr, NoMemory>
    ensures { IfOk result (λ built. built ≡ Machine.built frame.kind frame.parts e) }
{
    let Frame { kind, parts } = frame;
    match kind {
        Begun::Operand(operator) => operated(alloc, operator, parts, e),
        Begun::Negated => {
            drop(parts);
            negated(alloc, e)
        }
        other => {
            drop(other);
            drop(parts);
            Ok(e)
        }
    }
}

fn negated(alloc: Global, e: Expr) -> Result<Expr, NoMemory>
    ensures { IfOk result (λ built. built ≡ Expr.Not e) }
{
    Ok(Expr::Not(Boxed::new(alloc, e)?))
}

/// The expression with all operators in front of it that end before this level.
pub fn join_up(alloc: Global, level: u32, e: Expr, frames: &mut Frames) -> Result<Expr, NoMemory>
    ensures { IfOk result (λ whole. joined whole frames.new ≡ Machine.join level e frames.old) }
{
    let mut whole = e;
    while frames.ends(level) {
        match frames.pop() {
            Some(frame) => whole = build(alloc, frame, whole)?,
            None => return Ok(whole),
        }
    }
    Ok(whole)
}
