//! One step of the machine, by the token that comes. What isn't kept is dropped by a call, as in `fixed`.

ghost use Rattle.std.specs.Prelude.{◌≡◌, List, [], ◌∷◌, ◌++◌, IfOk, IfSome, IfNone, length};
ghost use Rattle.expr_text.specs.Machine;
ghost use Rattle.expr_text.specs.Tokens;
ghost use Rattle.expr_text.specs.declared.machine.Begun.TheVariants as Begun;
ghost use Rattle.db_model.specs.declared.expression.Expr.{Expr};
ghost use Rattle.expr_text.specs.Machine.{now, joined};

use crate::fixed::{closes, open_look_up, open_present, present_name, searched, size, table_name};
use crate::frames::Frames;
use crate::joining::{both, join_up};
use crate::machine::{Begun, Frame, Mode, Next, Wanted};
use crate::state::State;
use crate::token::{BinaryOp, Call, Token};
use db_model::{Expr, Name, NoMemory};
use sqlite_items::{Boxed, Items};
use std::alloc::Global;
use std::mem;

/// Opens a frame, in which an expression begins.
fn opened(frames: &mut Frames, kind: Begun, parts: Items<Expr>) -> Result<Option<Mode>, NoMemory>
    ensures { IfOk result (λ mode. now mode frames.new ≡ Machine.wants (Machine.frame kind parts ∷ frames.old)) }
{
    frames.push(Frame { kind, parts })?;
    Ok(Some(Mode::Wants(Wanted::Expression)))
}

/// Opens a frame behind one expression.
fn opened_behind(
    alloc: Global,
    frames: &mut Frames,
    kind: Begun,
    left: Expr,
) -> Result<Option<Mode>, NoMemory>
    ensures { IfOk result (λ mode. now mode frames.new ≡ Machine.wants (Machine.frame kind (left ∷ []) ∷ frames.old)) }
{
    let mut parts = Items::new(alloc);
    parts.push(left)?;
    opened(frames, kind, parts)
}

/// A token with which an expression begins.
fn begin(alloc: Global, frames: &mut Frames, token: Token) -> Result<Option<Mode>, NoMemory>
    ensures { IfOk result (λ mode. now mode frames.new ≡ Machine.begin frames.old token) }
{
    match token {
        Token::Number(n) => Ok(Some(Mode::Behind(Next::Any, Expr::Number(n)))),
        Token::Text(bytes) => Ok(Some(Mode::Behind(Next::Any, Expr::Text(bytes)))),
        Token::Name(name) => Ok(Some(Mode::Behind(Next::Any, Expr::Field(name)))),
        Token::Protocol(name) => Ok(Some(Mode::Behind(Next::Any, Expr::Protocol(name)))),
        Token::Variable(name) => Ok(Some(Mode::Behind(Next::Any, Expr::Variable(name)))),
        Token::Column { table, column } => {
            Ok(Some(Mode::Behind(Next::Any, Expr::Column { table, column })))
        }
        Token::Not => {
            if frames.wanted() <= 3 {
                opened(frames, Begun::Negated, Items::new(alloc))
            } else {
                Ok(None)
            }
        }
        Token::Open => opened(frames, Begun::Parenthesis, Items::new(alloc)),
        Token::Call(call) => Ok(Some(Mode::Wants(Wanted::CallOpens(call)))),
        Token::IsPresent => Ok(Some(Mode::Wants(Wanted::PresentOpens))),
        Token::LookUp { renew } => Ok(Some(Mode::Wants(Wanted::LookUpOpens { renew }))),
        Token::Operator(_)
        | Token::Close
        | Token::OpenBracket
        | Token::Colon
        | Token::CloseBracket
        | Token::Comma => Ok(None),
    }
}

/// An operator behind an expression.
fn operator(
    alloc: Global,
    operator: BinaryOp,
    e: Expr,
    frames: &mut Frames,
) -> Result<Option<Mode>, NoMemory>
    ensures { IfOk result (λ mode. now mode frames.new
        ≡ Machine.operator operator (Machine.join (Tokens.left_level_of operator) e frames.old)) }
{
    let left = join_up(alloc, operator.left_level(), e, frames)?;
    if frames.wanted() <= operator.level() {
        opened_behind(alloc, frames, Begun::Operand(operator), left)
    } else {
        drop(left);
        Ok(None)
    }
}

fn close_call(alloc: Global, call: Call, e: Expr) -> Result<Option<Mode>, NoMemory>
    ensures { (k : Machine.Stack) → IfOk result (λ mode. now mode k ≡ Machine.close_call call e k) }
{
    match call {
        Call::ToNumber => Ok(Some(Mode::Behind(Next::Any, Expr::ToNumber(Boxed::new(alloc, e)?)))),
        Call::LengthOf => Ok(Some(Mode::Behind(Next::Any, Expr::LengthOf(Boxed::new(alloc, e)?)))),
        Call::ToBytes | Call::HasText => {
            drop(e);
            Ok(None)
        }
    }
}

fn close_in(
    alloc: Global,
    kind: Begun,
    parts: Items<Expr>,
    e: Expr,
) -> Result<Option<Mode>, NoMemory>
    ensures { (k : Machine.Stack) → IfOk result (λ mode. now mode k ≡ Machine.close_in kind parts e k) }
{
    match kind {
        Begun::Parenthesis => Ok(Some(Mode::Behind(Next::Any, e))),
        Begun::Argument(call) => close_call(alloc, call, e),
        Begun::Key { table, renew } => {
            let mut keys = parts;
            keys.push(e)?;
            Ok(Some(Mode::Behind(Next::Any, Expr::LookUp { table, renew, keys })))
        }
        other => {
            drop(other);
            drop(parts);
            drop(e);
            Ok(None)
        }
    }
}

/// A closing parenthesis behind a whole expression.
fn close(alloc: Global, e: Expr, frames: &mut Frames) -> Result<Option<Mode>, NoMemory>
    ensures { IfOk result (λ mode. now mode frames.new ≡ Machine.close e frames.old) }
{
    match frames.pop() {
        None => {
            drop(e);
            Ok(None)
        }
        Some(frame) => close_in(alloc, frame.kind, frame.parts, e),
    }
}

fn comma_in_call(call: Call, e: Expr) -> Option<Mode>
    ensures { (k : Machine.Stack) → now result k ≡ Machine.comma_in_call call e k }
{
    match call {
        Call::ToNumber | Call::LengthOf => {
            drop(e);
            None
        }
        Call::ToBytes => Some(Mode::Behind(Next::Size, e)),
        Call::HasText => Some(Mode::Behind(Next::Searched, e)),
    }
}

fn comma_in(
    frames: &mut Frames,
    kind: Begun,
    parts: Items<Expr>,
    e: Expr,
) -> Result<Option<Mode>, NoMemory>
    ensures { IfOk result (λ mode. now mode frames.new ≡ Machine.comma_in kind parts e frames.old) }
{
    match kind {
        Begun::Argument(call) => Ok(comma_in_call(call, e)),
        Begun::Key { table, renew } => {
            let mut keys = parts;
            keys.push(e)?;
            opened(frames, Begun::Key { table, renew }, keys)
        }
        other => {
            drop(other);
            drop(parts);
            drop(e);
            Ok(None)
        }
    }
}

/// A comma behind a whole expression.
fn comma(e: Expr, frames: &mut Frames) -> Result<Option<Mode>, NoMemory>
    ensures { IfOk result (λ mode. now mode frames.new ≡ Machine.comma e frames.old) }
{
    match frames.pop() {
        None => {
            drop(e);
            Ok(None)
        }
        Some(frame) => comma_in(frames, frame.kind, frame.parts, e),
    }
}

fn colon_in(
    frames: &mut Frames,
    kind: Begun,
    parts: Items<Expr>,
    e: Expr,
) -> Result<Option<Mode>, NoMemory>
    ensures { IfOk result (λ mode. now mode frames.new ≡ Machine.colon_in kind parts e frames.old) }
{
    match kind {
        Begun::Start => {
            let mut parts = parts;
            parts.push(e)?;
            opened(frames, Begun::Length, parts)
        }
        other => {
            drop(other);
            drop(parts);
            drop(e);
            Ok(None)
        }
    }
}

/// A colon behind a whole expression.
fn colon(e: Expr, frames: &mut Frames) -> Result<Option<Mode>, NoMemory>
    ensures { IfOk result (λ mode. now mode frames.new ≡ Machine.colon e frames.old) }
{
    match frames.pop() {
        None => {
            drop(e);
            Ok(None)
        }
        Some(frame) => colon_in(frames, frame.kind, frame.parts, e),
    }
}

fn slice(alloc: Global, base: Expr, from: Expr, count: Expr) -> Result<Expr, NoMemory>
    ensures { IfOk result (λ e. e ≡ Machine.sliced (base ∷ (from ∷ [])) count) }
{
    let base = Boxed::new(alloc, base);
    let (from, count) = both(alloc, from, count)?;
    Ok(Expr::Slice {
        base: base?,
        from,
        count,
    })
}

/// The two parts, where there are two.
fn pair(parts: &mut Items<Expr>) -> Option<(Expr, Expr)>
    ensures two { IfSome result (λ p. parts.old ≡ p.0 ∷ (p.1 ∷ [])) }
    ensures other { IfNone result (length parts.old ≡ 2 → ⊥) }
{
    if parts.len() != 2 {
        return None;
    }
    let second = parts.pop()?;
    match parts.pop() {
        Some(first) => Some((first, second)),
        None => {
            drop(second);
            None
        }
    }
}

/// A slice of its base and its first place, and of its length.
#[tactic(auto, using(crate::proofs::Slices::not_two))]
fn sliced(alloc: Global, parts: Items<Expr>, count: Expr) -> Result<Expr, NoMemory>
    ensures { IfOk result (λ e. e ≡ Machine.sliced parts count) }
{
    let mut parts = parts;
    match pair(&mut parts) {
        Some((base, from)) => slice(alloc, base, from, count),
        None => Ok(count),
    }
}

fn close_bracket_in(
    alloc: Global,
    kind: Begun,
    parts: Items<Expr>,
    e: Expr,
) -> Result<Option<Mode>, NoMemory>
    ensures { (k : Machine.Stack) → IfOk result (λ mode. now mode k ≡ Machine.close_bracket_in kind parts e k) }
{
    match kind {
        Begun::Length => Ok(Some(Mode::Behind(Next::Any, sliced(alloc, parts, e)?))),
        other => {
            drop(other);
            drop(parts);
            drop(e);
            Ok(None)
        }
    }
}

/// A closing bracket behind a whole expression.
fn close_bracket(alloc: Global, e: Expr, frames: &mut Frames) -> Result<Option<Mode>, NoMemory>
    ensures { IfOk result (λ mode. now mode frames.new ≡ Machine.close_bracket e frames.old) }
{
    match frames.pop() {
        None => {
            drop(e);
            Ok(None)
        }
        Some(frame) => close_bracket_in(alloc, frame.kind, frame.parts, e),
    }
}

/// A token behind an expression.
fn go_on(
    alloc: Global,
    e: Expr,
    frames: &mut Frames,
    token: Token,
) -> Result<Option<Mode>, NoMemory>
    ensures { IfOk result (λ mode. now mode frames.new ≡ Machine.go_on e frames.old token) }
{
    match token {
        Token::Operator(sign) => operator(alloc, sign, e, frames),
        Token::OpenBracket => opened_behind(alloc, frames, Begun::Start, e),
        Token::Close => {
            let whole = join_up(alloc, 1, e, frames)?;
            close(alloc, whole, frames)
        }
        Token::Comma => {
            let whole = join_up(alloc, 1, e, frames)?;
            comma(whole, frames)
        }
        Token::Colon => {
            let whole = join_up(alloc, 1, e, frames)?;
            colon(whole, frames)
        }
        Token::CloseBracket => {
            let whole = join_up(alloc, 1, e, frames)?;
            close_bracket(alloc, whole, frames)
        }
        other => {
            drop(other);
            drop(e);
            Ok(None)
        }
    }
}

/// The parenthesis behind a function's name.
fn open_call(
    alloc: Global,
    frames: &mut Frames,
    call: Call,
    token: Token,
) -> Result<Option<Mode>, NoMemory>
    ensures { IfOk result (λ mode. now mode frames.new ≡ Machine.open_call call frames.old token) }
{
    match token {
        Token::Open => opened(frames, Begun::Argument(call), Items::new(alloc)),
        other => {
            drop(other);
            Ok(None)
        }
    }
}

/// A comma behind a key, or the parenthesis that closes a look-up.
fn key_or_end(
    frames: &mut Frames,
    table: Name,
    renew: bool,
    keys: Items<Expr>,
    token: Token,
) -> Result<Option<Mode>, NoMemory>
    ensures { IfOk result (λ mode. now mode frames.new ≡ Machine.key_or_end table renew keys frames.old token) }
{
    match token {
        Token::Comma => opened(frames, Begun::Key { table, renew }, keys),
        Token::Close => Ok(Some(Mode::Behind(Next::Any, Expr::LookUp { table, renew, keys }))),
        other => {
            drop(other);
            Ok(None)
        }
    }
}

/// A token where no expression is held.
fn wanted_in(
    alloc: Global,
    wanted: Wanted,
    frames: &mut Frames,
    token: Token,
) -> Result<Option<Mode>, NoMemory>
    ensures { IfOk result (λ next. now next frames.new ≡ Machine.wanted_in wanted frames.old token) }
{
    match wanted {
        Wanted::Expression => begin(alloc, frames, token),
        Wanted::CallOpens(call) => open_call(alloc, frames, call, token),
        Wanted::PresentOpens => Ok(open_present(token)),
        Wanted::PresentName => Ok(present_name(token)),
        Wanted::LookUpOpens { renew } => Ok(open_look_up(renew, token)),
        Wanted::TableName { renew } => Ok(table_name(alloc, renew, token)),
    }
}

/// A token behind an expression.
fn behind(
    alloc: Global,
    next: Next,
    e: Expr,
    frames: &mut Frames,
    token: Token,
) -> Result<Option<Mode>, NoMemory>
    ensures { IfOk result (λ mode. now mode frames.new ≡ Machine.behind next e frames.old token) }
{
    match next {
        Next::Any => go_on(alloc, e, frames, token),
        Next::Size => size(alloc, e, token),
        Next::Searched => searched(alloc, e, token),
        Next::Closes => Ok(closes(e, token)),
    }
}

/// The mode behind a token, or none where the token is at fault; what is open is changed with it.
fn step_in(
    alloc: Global,
    mode: Mode,
    frames: &mut Frames,
    token: Token,
) -> Result<Option<Mode>, NoMemory>
    ensures { IfOk result (λ next. now next frames.new ≡ Machine.step_in mode frames.old token) }
{
    match mode {
        Mode::Wants(wanted) => wanted_in(alloc, wanted, frames, token),
        Mode::Behind(next, e) => behind(alloc, next, e, frames, token),
        Mode::Keys { table, renew, keys } => key_or_end(frames, table, renew, keys, token),
    }
}

/// Goes on in the next mode, where there is one.
fn settle(state: &mut State, next: Option<Mode>) -> bool
    ensures { Machine.stepped result state.new ≡ now next state.old.stack }
{
    match next {
        None => false,
        Some(mode) => {
            drop(mem::replace(&mut state.mode, mode));
            true
        }
    }
}

/// Takes a token, unless no expression goes on with it; then the state says nothing any more.
pub fn step(alloc: Global, state: &mut State, token: Token) -> Result<bool, NoMemory>
    ensures { IfOk result (λ taken. Machine.stepped taken state.new ≡ Machine.step state.old token) }
{
    let mode = mem::replace(&mut state.mode, Mode::Wants(Wanted::Expression));
    let next = step_in(alloc, mode, &mut state.stack, token)?;
    Ok(settle(state, next))
}
