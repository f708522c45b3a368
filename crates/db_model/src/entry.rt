use crate::{Keys, Row, Stamp};

/// How long an entry of a table lives, and what a renewing hit on it does.
#[derive(Clone, Copy, PartialEq, Eq)]
pub enum Validity {
    /// It has no deadline.
    Forever,
    /// It lives `keep` seconds.
    MaxTime,
    /// It lives `keep` seconds, and from a renewing hit on `hit` seconds.
    UpdateOnHit,
    /// It has no deadline, and a renewing hit adds an exact entry that lives `hit` seconds.
    AddOnHit,
}

/// An entry as it is asked to be added. `keep` and `hit` are seconds.
#[derive(Clone, Drop, PartialEq)]
pub struct NewEntry {
    pub keys: Keys,
    pub masks: Option<Keys>,
    pub validity: Validity,
    pub keep: u32,
    pub hit: u32,
    pub row: Row,
}

/// An entry of a table. Where it has masks, its keys are already masked.
#[derive(Drop)]
pub struct Entry {
    pub keys: Keys,
    pub masks: Option<Keys>,
    pub validity: Validity,
    /// Seconds.
    pub hit: u32,
    /// The first moment at which it no longer lives; none where it lives for ever.
    pub deadline: Option<Stamp>,
    pub row: Row,
}
