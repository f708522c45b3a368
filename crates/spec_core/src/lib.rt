//! Speculative decoding as a machine over events, without any thread. A window of packets is begun; each packet is
//! taken with the session of some committed packets, decoded from there, delivered, and committed in order: kept where
//! the answers that it got still hold, and else decoded again. The contract of each call of `Core` is one event of the
//! machine (`specs/Events.antt`), and what `Core` keeps (`specs/Machine.antt`) holds after every list of its calls: its
//! session is that of the committed packets, and a settled packet has the texts of decoding the packets one by one.
//! `laws` says it of whole windows: their texts, their receipts, and how windows join.
#![tactic(auto)]

mod committed;
mod job;
pub mod laws;
mod machine;
mod settling;
mod slot;
mod texts;
mod trace;
mod window;

pub use committed::Committed;
pub use engine::{Engine, Outcome, Receipt, Taken, Wanted, Why};
pub use job::{Job, speculate};
pub use machine::Core;
pub use slot::{Ready, Speculation};
pub use texts::Texts;
pub use trace::trace_line;
