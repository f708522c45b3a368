use crate::token::{BinaryOp, Call};
use db_model::{Expr, Name};
use sqlite_items::Items;

/// What was begun and waits for an expression.
#[derive(Drop)]
pub enum Begun {
    /// An operator, behind the operand on its left.
    Operand(BinaryOp),
    Negated,
    Parenthesis,
    /// A slice, behind its base: its first place is read.
    Start,
    /// A slice, behind its base and its first place: its length is read.
    Length,
    /// The first argument of a function.
    Argument(Call),
    /// A key of a look-up, behind the keys before it.
    Key { table: Name, renew: bool },
}

/// What was begun, with the parts before the expression that it waits for.
#[derive(Drop)]
pub struct Frame {
    pub kind: Begun,
    pub parts: Items<Expr>,
}

/// What has to come where no expression is held.
#[derive(Clone, Copy)]
pub enum Wanted {
    Expression,
    /// The parenthesis behind a function.
    CallOpens(Call),
    /// The parenthesis behind `ispresent`, and then the name.
    PresentOpens,
    PresentName,
    /// The parenthesis behind a look-up, and then the name of the table.
    LookUpOpens { renew: bool },
    TableName { renew: bool },
}

/// What has to come behind an expression.
#[derive(Clone, Copy)]
pub enum Next {
    /// It goes on, or ends.
    Any,
    /// The size of the bytes of a number.
    Size,
    /// The text that is searched for in bytes.
    Searched,
    /// The parenthesis that closes it; it is complete but for that.
    Closes,
}

/// What the next token has to be.
#[derive(Drop)]
pub enum Mode {
    Wants(Wanted),
    Behind(Next, Expr),
    /// A look-up with its keys so far: a comma, or the parenthesis that closes it.
    Keys {
        table: Name,
        renew: bool,
        keys: Items<Expr>,
    },
}
