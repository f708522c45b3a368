//! PSML: a packet with its tree as the texts of the summary's sections. The contract gives the layer above that the text of
//! a packet is the one that the definition says, always added behind what a buffer holds already, and the opening and
//! closing of the whole.
#![tactic(auto)]

mod last_field;
mod packet;
mod pieces;
mod source;
mod summaries;

pub use packet::{closing, opening, packet_text, push_packet_text};
pub use source::Summed;
pub use summaries::{Content, Contents, Summaries};
