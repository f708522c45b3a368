//! Why a database is refused: each cause has a code, by which it is told. `code` gives the code, and its contract
//! names the table of codes once for all crates that refuse; `laws` says that a code tells its cause.
#![tactic(auto)]

mod cause;
pub mod laws;

pub use cause::Cause;
