//! The words of the command line. `read_words` gives the plan that they ask for exactly where they ask for one;
//! else the index and the code of the first fault. Which commands there are, and which options each of them has,
//! with ranges and defaults, is one table (`COMMANDS`, `rows`).
#![tactic(auto)]

mod cause;
mod command;
mod fail;
mod given;
pub mod laws;
mod names;
mod number;
mod occurrence;
mod option_name;
mod options;
mod plan;
mod read;
mod row;
mod table;

pub use cause::Cause;
pub use command::{COMMANDS, Command};
pub use fail::WordsFail;
pub use option_name::OptionName;
pub use plan::Plan;
pub use read::read_words;
pub use row::{Form, Need, OptionRow};
pub use table::rows;
