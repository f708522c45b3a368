//! Transcripts of questions: recorded, checked, applied. `record` decodes a packet over a view of a session and keeps
//! what was asked with the answers. Its contract says that tree and log are those of the packet's decoding from what
//! the view holds. `check` answers whether a log agrees with a session, or the first answer that differs; `apply` puts
//! the questions of a log to a session and leaves what the log leaves. `laws` has what these say together: a record
//! whose log agrees with another session is the decoding from there.
#![tactic(auto)]

mod applying;
mod checking;
mod copies;
pub mod laws;
mod overlay;
mod recording;
mod transcript;

pub use applying::apply;
pub use checking::check;
pub use overlay::Overlay;
pub use recording::record;
pub use transcript::{Check, Record, Transcript};
