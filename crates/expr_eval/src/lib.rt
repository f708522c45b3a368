//! Evaluates every expression over anything that answers questions. The contract of `eval` says that the
//! value or the reason, the state after it, and the questions with their answers are exactly those of the
//! definition; where memory is refused, some first of these questions were asked. `eval_number` says the same of the
//! value taken as a number.
#![tactic(auto)]

mod end;
mod evaluation;
mod fields;
mod numbers;
mod operand;
mod operators;
mod reads;
mod tables;
mod values;

pub use end::EvalEnd;
pub use evaluation::{eval, eval_number};
