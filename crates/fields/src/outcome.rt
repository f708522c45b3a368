/// Where a field ends.
#[derive(Clone, Copy, Debug, PartialEq, Eq)]
pub enum Extent {
    /// It has this size in bytes.
    Size(u32),
    /// It would pass the limit.
    Short,
}
