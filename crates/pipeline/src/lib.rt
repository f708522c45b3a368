//! The way of packets from a capture to the outputs, window by window: a window is read, its packets are decoded in order,
//! and their texts are written. The contract of `write_named` says to the layer above what each named output has taken then,
//! by the status that it ends with, and which count of faults rose for that; that of `open_capture`, what was opened.
#![tactic(auto)]

mod capture;
mod output;
mod packets;
mod pipeline;
mod reading;
mod sinks;
mod status;

pub use capture::open_capture;
pub use packets::write_named;
pub use reading::Room;
pub use sinks::OutputFiles;
pub use status::{Part, Role, Status, refused};
