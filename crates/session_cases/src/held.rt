ghost use Rattle.std.specs.Prelude.{◌≡◌, true, IfSome};
ghost use Rattle.session.specs.Entries.{fits_in};

use db_model::{CheckedDb, Entry, Keys, Row, Validity, Value};
use session::Session;
use std::alloc::Global;

/// `masked` or `exact`.
pub fn is_masked(part: &str) -> Option<bool> {
    match part {
        "masked" => Some(true),
        "exact" => Some(false),
        _ => None,
    }
}

/// The entry at a place of a part of the first table, and whether there is one.
pub fn entry_at(db: &CheckedDb, session: &Session, masked: bool, at: u32) -> Option<Option<Entry>>
    requires { session.now.database ≡ db.now }
    ensures { IfSome result (λ o. IfSome o (λ e. fits_in db.now 0 masked e ≡ true)) }
{
    if db.database().tables.len() == 0 {
        return None;
    }
    session.entry(0, masked, at).ok()
}

/// `entry PART PLACE: WANTED`: what the first table holds there.
pub fn holds_entry(alloc: Global, db: &CheckedDb, session: &Session, text: &str) -> Option<()>
    requires { session.now.database ≡ db.now }
{
    let (place, wanted) = text.split_once(": ")?;
    let (part, at) = place.split_once(' ')?;
    let found = entry_at(db, session, is_masked(part)?, at.parse::<u32>().ok()?)?;
    is_wanted(alloc, &found, wanted).then_some(())
}

/// Whether an entry is the wanted one: `none`, or KEY or KEY/MASK, its kind, the seconds of a hit, its deadline in
/// nanoseconds or `-`, and its value.
fn is_wanted(alloc: Global, found: &Option<Entry>, wanted: &str) -> bool {
    match found {
        None => wanted == "none",
        Some(entry) => is_entry(alloc, entry, wanted).unwrap_or(false),
    }
}

fn is_entry(alloc: Global, entry: &Entry, wanted: &str) -> Option<bool> {
    let (keys, rest) = wanted.split_once(' ')?;
    let (kind, rest) = rest.split_once(' ')?;
    let (hit, rest) = rest.split_once(' ')?;
    let (deadline, row) = rest.split_once(' ')?;
    let is_kept = is_deadline(entry.deadline, deadline) && hit.parse::<u32>().ok()? == entry.hit;
    Some(
        is_kept
            && kind == word(entry.validity)
            && has_keys(alloc, entry, keys)
            && is_row(alloc, &entry.row, row),
    )
}

fn is_deadline(deadline: Option<u64>, wanted: &str) -> bool {
    match deadline {
        None => wanted == "-",
        Some(deadline) => wanted.parse::<u64>() == Ok(deadline),
    }
}

fn word(validity: Validity) -> &'static str {
    match validity {
        Validity::Forever => "keepforever",
        Validity::MaxTime => "keepmaxtime",
        Validity::UpdateOnHit => "updateonhit",
        Validity::AddOnHit => "addonhit",
    }
}

fn has_keys(alloc: Global, entry: &Entry, wanted: &str) -> bool {
    match (&entry.masks, wanted.split_once('/')) {
        (None, None) => is_key(alloc, &entry.keys, wanted),
        (Some(masks), Some((key, mask))) => {
            is_key(alloc, &entry.keys, key) && is_key(alloc, masks, mask)
        }
        _ => false,
    }
}

fn is_key(alloc: Global, keys: &Keys, digits: &str) -> bool {
    match keys.as_slice() {
        [key] => is_hex(alloc, key.as_slice(), digits),
        _ => false,
    }
}

fn is_row(alloc: Global, row: &Row, digits: &str) -> bool {
    match row.as_slice() {
        [Value::Buf(bytes)] => is_hex(alloc, bytes.as_slice(), digits),
        _ => false,
    }
}

fn is_hex(alloc: Global, bytes: &[u8], digits: &str) -> bool {
    match hex::decode(alloc, digits) {
        Ok(wanted) => wanted.as_slice() == bytes,
        Err(_) => false,
    }
}
