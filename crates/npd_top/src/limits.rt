/// The most bytes that the text of a database has.
pub const MOST_DATABASE: usize = 1_048_576;
