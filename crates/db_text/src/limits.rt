/// The most bytes of a database text.
pub const MOST_TEXT_BYTES: usize = 1_048_576;

/// The greatest depth at which an element may stand; the top one has depth 1.
pub const MOST_ELEMENT_DEPTH: usize = 64;
