/// Bytes of the text of one expression.
pub const MOST_EXPRESSION_BYTES: usize = 1_024;
