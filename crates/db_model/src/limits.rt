//! Every limit that a definition needs, in one place.

/// The first moment that is too late to be a stamp, in nanoseconds: 4.3 * 10^18.
pub const STAMP_END: u64 = 4_300_000_000_000_000_000;

/// The first moment that is too late to be a deadline, in nanoseconds: 9 * 10^18. A stamp and the greatest
/// number of seconds come before it.
pub const DEADLINE_END: u64 = 9_000_000_000_000_000_000;

/// Nanoseconds of one second.
pub const SECOND: u64 = 1_000_000_000;

/// Turns of loops that one packet may make.
pub const MOST_TURNS: u32 = 4_096;

/// Field and block nodes that the tree of one packet may have. Notes and payload are not counted.
pub const MOST_NODES: u32 = 16_384;

/// Protocols that one packet may enter.
pub const MOST_ENTERED: u32 = 32;

/// Look-ups and additions that the decoding of one packet may ask.
pub const MOST_QUESTIONS: u32 = 1_024;

/// Blocks and loops that may stand in one another, included blocks counted.
pub const MOST_NESTED: u32 = 64;

/// Nodes of one expression.
pub const MOST_EXPRESSION_NODES: u32 = 256;

/// Depth of one expression, where one node alone has depth 1.
pub const MOST_EXPRESSION_DEPTH: u32 = 32;

/// The greatest number of an expression.
pub const GREATEST_NUMBER: u32 = 4_294_967_295;

/// The most bytes that are read as a number.
pub const MOST_NUMBER_BYTES: u32 = 4;

/// The number that payload has in a tree, which is no protocol's.
pub const PAYLOAD: u16 = 65_535;

pub const MOST_PROTOCOLS: u32 = 1_024;

pub const MOST_VARIABLES: u32 = 256;

pub const MOST_TABLES: u32 = 16;

pub const MOST_SHOW_TEMPLATES: u32 = 256;

pub const MOST_SUM_TEMPLATES: u32 = 256;

pub const MOST_SECTIONS: u32 = 16;

/// Keys of one table, of which it has at least one.
pub const MOST_KEYS: u32 = 8;
/// Data columns of one table.
pub const MOST_COLUMNS: u32 = 8;
/// Bytes of one key.
pub const MOST_KEY_SIZE: u32 = 16;
/// Bytes of one data value.
pub const MOST_COLUMN_SIZE: u32 = 64;
/// Exact entries of one table, and of all tables together.
pub const MOST_EXACT: u32 = 65_536;

pub const MOST_EXACT_OVER_ALL: u32 = 262_144;
/// Masked entries of one table.
pub const MOST_MASKED: u32 = 1_024;

/// Bytes of a fixed field.
pub const MOST_FIXED: u32 = 65_535;
/// Bytes of a bit field.
pub const MOST_BIT_SIZE: u32 = 4;
/// Bytes of a token.
pub const MOST_TOKEN: u32 = 64;

pub const LEAST_ALIGNMENT: u32 = 2;

pub const MOST_ALIGNMENT: u32 = 256;
/// Bytes of a group of a show template: of the kind dec, and of the others.
pub const MOST_DECIMAL_GROUP: u32 = 4;

pub const MOST_GROUP: u32 = 64;
/// Bytes of an attribute's text, and of the text between two groups.
pub const MOST_TEXT: u32 = 64;

pub const MOST_SEPARATOR: u32 = 8;
