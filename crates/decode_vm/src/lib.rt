//! The engine: it runs the code of a protocol on a packet, over anything that answers questions. The contract of
//! `run` says that the nodes, the way in which the list ended and the state behind it are those of the run that the
//! code does, that exactly the questions of that run were asked, and that some first of them were where memory was
//! refused. `follow` does the same for one protocol after another, as each names the next, and `decode` for a whole
//! packet: the tree and the session behind it are those of `dec`, and a told list grew by exactly its log.
#![tactic(auto)]

mod act;
mod chain;
mod choose;
mod enter;
mod field;
mod list;
mod machine;
mod masks;
mod packet;
mod program;
mod resume;
mod room;
mod set;
mod steps;
mod turn;
mod update;
mod values;

pub use chain::{Chained, follow};
pub use list::{Ended, run};
pub use packet::decode;
pub use steps::Steps;
