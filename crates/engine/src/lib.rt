//! What packets are decoded and written by: a database and what is made of it once, shared by all who decode by it.
//! The contract of `Engine::decode` says that the texts of a packet are those of its decoding from the content of what
//! answers, which goes on to the content behind it; that of `Engine::settle` says it of packets, one after another. A
//! `Receipt` says how a packet was decoded, and has a line of a trace.
#![tactic(auto)]

mod engine;
pub mod laws;
mod ready;
mod receipt;
mod shared;
mod texts;
mod trace;

pub use engine::Engine;
pub use ready::Ready;
pub use receipt::{Outcome, Receipt, Taken, Why};
pub use texts::{Texts, Wanted, put_closings};
pub use trace::push_trace_line;
