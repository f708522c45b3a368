use db_model::CheckedDb;
use std::alloc::Global;

/// What stays the same while the code of a protocol is written: the database, and the number of the protocol, whose
/// fields and blocks the names stand for.
#[derive(Clone, Copy)]
pub struct Scope<'a> {
    pub alloc: Global,
    pub db: &'a CheckedDb,
    pub protocol: u16,
}
