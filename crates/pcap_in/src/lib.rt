//! Reads a capture (a pcap file) from a host, packet by packet: in both byte orders, with microseconds and with
//! nanoseconds. The contract of `CapReader` says that `begin`, `more` and `next`, over reads of any sizes, give
//! exactly the packets and the end that the definition of a capture gives of the input's bytes, each in its place,
//! that a read fault has its cause, and what was taken then.
//! `laws` says of the definition that a capture's records are what stands at the front, and the records behind, and
//! what a limit of packets makes of what was read.
#![tactic(auto)]

mod fail;
mod form;
pub mod laws;
mod next;
mod reader;
mod record;
mod state;

pub use fail::CapFail;
pub use form::{Endian, Form, Resolution};
pub use next::Next;
pub use reader::CapReader;
