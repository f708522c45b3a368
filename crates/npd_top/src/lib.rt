//! npd's top call: `run_serial` takes the command words and a host, and promises what each status means and what
//! the outputs have taken then.
#![tactic(auto)]

mod job;
mod laws;
mod limits;
mod line;
mod load;
mod run;
mod totals;

pub use job::{CheckFiles, DecodeFiles, Job};
pub use laws::a_run_ends_well;
pub use pipeline::{OutputFiles, Part, Role, Status};
pub use run::run_serial;
