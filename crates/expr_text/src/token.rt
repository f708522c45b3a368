ghost use Rattle.std.specs.Prelude.{◌≡◌};
ghost use Rattle.expr_text.specs.Tokens;

use db_model::{Bytes, Name, Operator};

/// An operator between two operands.
#[derive(Clone, Copy)]
pub enum BinaryOp {
    Or,
    And,
    /// One that evaluates both sides.
    Plain(Operator),
}

fn plain_level(operator: Operator) -> u32
    ensures { result ≡ Tokens.plain_level operator }
{
    match operator {
        Operator::Mul | Operator::Div | Operator::Mod | Operator::BitAnd => 6,
        Operator::Add | Operator::Sub | Operator::BitOr => 5,
        Operator::Lt | Operator::Le | Operator::Gt | Operator::Ge | Operator::Eq | Operator::Ne =>
            4,
    }
}

impl BinaryOp {
    /// How tightly it binds, 1 to 6: what stands on its right binds tighter.
    pub fn level(self) -> u32
        ensures { result ≡ Tokens.level_of self }
    {
        match self {
            BinaryOp::Or => 1,
            BinaryOp::And => 2,
            BinaryOp::Plain(operator) => plain_level(operator),
        }
    }

    /// The least level of what stands on its left: its own, so that it groups to the left, but one more for a
    /// comparison.
    pub fn left_level(self) -> u32
        ensures { result ≡ Tokens.left_level_of self }
    {
        let level = self.level();
        if level == 4 { 5 } else { level }
    }
}

/// A function whose first argument is an expression.
#[derive(Clone, Copy)]
pub enum Call {
    /// `buf2int`
    ToNumber,
    /// `buflen`
    LengthOf,
    /// `int2buf`
    ToBytes,
    /// `hasstring`
    HasText,
}

/// A token of the expression language.
#[derive(Drop)]
pub enum Token {
    Number(u32),
    Text(Bytes),
    /// A bare name.
    Name(Name),
    /// `#name`
    Protocol(Name),
    /// `$name`
    Variable(Name),
    /// `$table.column`
    Column { table: Name, column: Name },
    Operator(BinaryOp),
    Not,
    Open,
    Close,
    OpenBracket,
    Colon,
    CloseBracket,
    Comma,
    Call(Call),
    /// `ispresent`
    IsPresent,
    /// `checklookuptable`, and `checkupdatelookuptable`, which renews.
    LookUp { renew: bool },
}
