//! Expressions with their names resolved: each field, variable, table, column and protocol that an expression of a
//! protocol names is a number of the database. The contract of `code_of` says that the code means what the
//! expression means, so whoever evaluates the code needs neither the names nor the protocol.
#![tactic(auto)]

mod code;
mod numbers;
mod resolve;

pub use code::{ExprCode, FieldNumbers};
pub use resolve::code_of;
