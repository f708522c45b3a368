//! The code of a database: for each protocol one flat list of operations with jumps, made once before packets are
//! decoded. The contract of `compile` says that from the first operation of a protocol the operations do exactly
//! what the definition of decoding says of the protocol's elements (`specs/Does.antt`).
#![tactic(auto)]

mod code;
mod emit;
mod entry;
mod leaf;
mod place;
mod protocols;
mod scope;
mod sound;
mod written;

pub use code::{BlockStart, Choice, Code, KeyCode, Op, ProtoCode, UpdateCode};
pub use protocols::compile;
pub use sound::{Ranges, SoundKind};
