//! What a tap is told of a packet: its number, its moment, how many of its bytes were captured, and the protocols that
//! its tree has. The contract of `Told::of` says that these are those of the packet and of the tree.
#![tactic(auto)]

mod protos;
mod told;

pub use protos::{MOST_PROTOS, ProtoList};
pub use told::Told;
