/// Elements that may stand in one another, the top one counted.
pub const MOST_LEVELS: u32 = 32;
