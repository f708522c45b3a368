ghost use Rattle.std.specs.Prelude.{◌≡◌, true, None, OnOk, IfOk, IfErr};
ghost use Rattle.db_model.specs.NameIndex.{IsIndex};
ghost use Rattle.db_model.specs.Objection;
ghost use Rattle.db_model.specs.Shape.{is_shaped};
ghost use Rattle.db_check.specs.Answer.{Judges, Objects};

use crate::objection::objection;
use db_model::{CheckedDb, Database, DbFail, Fault, NameIndex};
use std::alloc::Global;

/// Whether no fault stands in a database.
fn judged(alloc: Global, db: &Database, names: &NameIndex) -> Result<(), DbFail>
    requires { IsIndex db.now names.now }
    ensures accepted { OnOk result (Objection.objection db.now ≡ None) }
    ensures refused { IfErr result (λ e. Objects db.now e) }
{
    match objection(alloc, db, names)? {
        Some(Fault { line, code }) => Err(DbFail::Fault { line, code }),
        None => Ok(()),
    }
}

/// The names of a database in which no fault stands.
fn names_of(alloc: Global, db: &Database) -> Result<NameIndex, DbFail>
    ensures accepted { OnOk result (Objection.objection db.now ≡ None) }
    ensures names { IfOk result (λ names. IsIndex db.now names) }
    ensures refused { IfErr result (λ e. Objects db.now e) }
{
    let names = NameIndex::of(alloc, db)?;
    match judged(alloc, db, &names) {
        Ok(()) => Ok(names),
        Err(fail) => {
            names.discard();
            Err(fail)
        }
    }
}

/// The same database, checked: it takes the names that it needs later with it. The code of a fault is that of its
/// cause (`Cause`).
pub fn check(alloc: Global, db: Database) -> Result<CheckedDb, DbFail>
    requires { is_shaped db ≡ true }
    ensures { Judges db result }
{
    match names_of(alloc, &db) {
        Ok(names) => Ok(CheckedDb::seal(db, names)),
        Err(fail) => {
            db.discard();
            Err(fail)
        }
    }
}
