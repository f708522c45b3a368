ghost use Rattle.std.specs.Prelude.{◌≡◌};

use db_model::NoMemory;
use thiserror::Error;

/// Why a text gave no expression.
#[derive(Debug, Drop, Error)]
pub enum ExprFail {
    /// The first fault from the left: its place in bytes, and its code. 1: a token, or a byte that begins none,
    /// with which no expression goes on. 2: the text ends early. 3: a number that is too long or too great.
    /// 4: a text that is too long, or an expression with too many nodes or too deep.
    #[error("fault {code} at byte {at}")]
    Fault { at: u32, code: u8 },
    #[error("out of memory")]
    NoMemory,
}

impl From<NoMemory> for ExprFail {
    ghost use Rattle.expr_text.specs.declared.fail.ExprFail.TheVariants as fail;

    ghost from_gives = { λ lack e. e ≡ fail.NoMemory };

    fn from(_: NoMemory) -> ExprFail {
        ExprFail::NoMemory
    }
}
