use crate::Bytes;

/// Where a field ends. Sizes are in bytes.
#[derive(Drop)]
pub enum FieldKind {
    Fixed(u32),
    Bit { size: u8, mask: u32 },
    /// As long as its expression says.
    Variable,
    /// Up to and with the first token.
    TokenEnded(Bytes),
    /// Up to and with the first LF.
    Line,
    /// Up to the next multiple of the alignment, counted from the origin.
    Padding(u32),
}

/// The numbers from `low` to `high`, both included.
#[derive(Clone, Copy, PartialEq, Eq)]
pub struct CaseRange {
    pub low: u32,
    pub high: u32,
}
