use crate::frames::Frames;
use crate::machine::Mode;

/// What the next token has to be, and what is open.
#[derive(Drop)]
pub struct State {
    pub mode: Mode,
    pub stack: Frames,
}
