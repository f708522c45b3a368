//! Expressions in text. `parse_expr` gives the expression that a text spells by the grammar, or exactly the
//! place and the code of the text's first fault; `print_expr` gives the canonical text of an expression, which
//! reads back as that expression.
#![tactic(auto)]

mod advance;
mod fail;
mod fixed;
mod frames;
mod front;
mod joining;
pub mod laws;
mod lexeme;
mod limits;
mod machine;
mod number;
mod parse;
mod print;
mod runs;
mod sign;
mod sizes;
mod state;
mod step;
mod text;
mod token;
mod word;

pub use fail::ExprFail;
pub use lexeme::{Lexeme, Scanned};
pub use limits::MOST_EXPRESSION_BYTES;
pub use number::number_of;
pub use parse::parse_expr;
pub use print::print_expr;
pub use token::{BinaryOp, Call, Token};
