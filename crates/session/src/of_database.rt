ghost use Rattle.std.specs.Prelude.{◌≡◌};
ghost use Rattle.std.specs.Borrow.{ftrue};
ghost use Rattle.db_model.specs.declared.database.Database.{Database};
ghost use Rattle.db_model.specs.contracts.database.Database as contract;

use db_model::CheckedDb;
use std::marker::Model;

/// The database that a session is of. Only proofs read it: it takes no bytes, and its functions do nothing.
#[derive(Drop)]
pub struct OfDatabase {
    pub ghost database: { Database } by { contract.the_row.coded },
}

impl Model for OfDatabase {
    ghost also_owns = { λ _. ftrue };
}

// It owns nothing.
unsafe impl Send for OfDatabase {}

unsafe impl Sync for OfDatabase {}

impl OfDatabase {
    pub fn new(_db: &CheckedDb) -> OfDatabase
        ensures { result.database ≡ _db.now }
    {
        OfDatabase {}
    }

    pub fn again(&self) -> OfDatabase
        ensures { result.database ≡ self.now.database }
    {
        OfDatabase {}
    }
}
