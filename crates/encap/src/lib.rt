//! The choice of a case by a number: the first case of a switch that holds it. The contract says which case it is.
#![tactic(auto)]

mod cases;

pub use cases::choose;
