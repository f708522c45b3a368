use db_model::CheckedDb;
use pdl_code::ProtoCode;
use std::alloc::Global;

/// What stays the same while the list of a protocol runs: the database, and the code of the protocol.
#[derive(Clone, Copy)]
pub struct Program<'a> {
    pub alloc: Global,
    pub db: &'a CheckedDb,
    pub code: &'a ProtoCode,
}
