//! Whether a database may be given to a decoder. `check` gives it as a checked one exactly where none of the eight
//! kinds of fault stands in what it declares and uses; else the line and the code of the fault: of all of them the
//! one of the least line, and there of the least code.
#![tactic(auto)]

mod around;
mod cycles;
mod first;
mod heights;
mod home;
mod judge;
mod kind;
mod known;
mod limits;
mod located;
mod nested;
mod numbers;
mod objection;
mod order;
mod own;
mod parts;
mod repeats;
mod rows;
mod search;
mod tables;
mod turns;
mod uses;
mod walk;

pub use judge::check;
