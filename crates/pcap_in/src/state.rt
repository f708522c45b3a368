/// How a reader of a capture stands.
#[derive(Clone, Copy)]
pub enum State {
    Reading,
    /// It met what is no record.
    Broken { offset: u64, code: u8 },
    /// It met a read fault or want of memory.
    Unusable,
}
