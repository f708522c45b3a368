//! Where a field of a packet ends, and the value of a bit field. The contracts say that both are exactly what
//! the definition of decoding says. Ends of tokens and lines are found by `memchr`, and no call takes memory.
#![tactic(auto)]

mod bits;
mod outcome;
mod padding;
mod size;
mod token;

pub use bits::bit_value;
pub use outcome::Extent;
pub use size::extent;
