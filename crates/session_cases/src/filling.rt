ghost use Rattle.std.specs.Prelude.{◌≡◌, true, IfSome};
ghost use Rattle.session.specs.Entries.{fits_in, limit_in};

use crate::held::{entry_at, is_masked};
use db_model::{CheckedDb, Entry};
use session::Session;
use std::alloc::Global;

/// The most entries of a part of the first table, 0 where there is no table.
fn limit(db: &CheckedDb, masked: bool) -> u32
    ensures { result ≡ limit_in db.now 0 masked }
{
    match db.database().tables.get(0) {
        Some(table) if masked => table.mask_entries,
        Some(table) => table.exact_entries,
        None => 0,
    }
}

/// `refill PART`: the session becomes a new one, into which the first entry of this part is filled.
pub fn refills(alloc: Global, db: &CheckedDb, session: &mut Session, part: &str) -> Option<()>
    requires { session.old.database ≡ db.now }
    ensures { session.new.database ≡ db.now }
{
    let masked = is_masked(part)?;
    let entry = entry_at(db, session, masked, 0)??;
    *session = filled(alloc, db, masked, &entry)?;
    Some(())
}

#[tactic(auto, using(crate::proofs::EmptyTables::has_room, crate::proofs::EmptyTables::is_apart))]
fn filled(alloc: Global, db: &CheckedDb, masked: bool, entry: &Entry) -> Option<Session>
    requires { fits_in db.now 0 masked entry.now ≡ true }
    ensures { IfSome result (λ s. s.database ≡ db.now) }
{
    if limit(db, masked) == 0 {
        return None;
    }
    let mut session = Session::new(alloc, db).ok()?;
    session.reserve(1).ok()?;
    session.fill(0, masked, entry);
    Some(session)
}
