ghost use Rattle.std.specs.Prelude.{◌≡◌, ◌<◌, None, Some, IfOk, IfSome};
ghost use Rattle.db_model.specs.Table.{entry_at, after_seconds};
ghost use Rattle.db_model.specs.declared.entry.Validity.TheVariants.{UpdateOnHit};
ghost use Rattle.table_list.specs.Space.{HoldsKeys, HoldsRow};

use crate::blank::Blank;
use crate::deadline::{after_seconds, first_deadline};
use db_model::{Entry, Keys, NewEntry, NoMemory, Row, STAMP_END, Stamp, Validity};

/// The entry that is added at a moment, in the memory of a blank one.
pub fn added(blank: Blank, new: &NewEntry, t: Stamp) -> Entry
    requires time { t < STAMP_END }
    requires keys { HoldsKeys blank.keys new.now.keys }
    requires masks { IfSome new.now.masks (HoldsKeys blank.masks) }
    requires row { HoldsRow blank.row new.now.row }
    ensures { result ≡ entry_at new.now t }
{
    Entry {
        keys: blank.keys.filled_by(&new.masks, &new.keys),
        masks: blank.masks.filled_if(&new.masks),
        validity: new.validity,
        hit: new.hit,
        deadline: first_deadline(new.validity, new.keep, t),
        row: blank.row.filled_row(new.row.as_slice()),
    }
}

/// The exact entry that a hit adds at a moment, under the asked keys, in the memory of a blank one.
pub fn added_on_hit(blank: Blank, keys: &Keys, entry: &Entry, t: Stamp) -> Entry
    requires time { t < STAMP_END }
    requires keys { HoldsKeys blank.keys keys.now }
    requires row { HoldsRow blank.row entry.now.row }
    ensures { result ≡ record {
      keys = keys.now;
      masks = None;
      validity = UpdateOnHit;
      hit = entry.now.hit;
      deadline = Some (after_seconds t entry.now.hit);
      row = entry.now.row;
    } }
{
    Entry {
        keys: blank.keys.filled(keys.as_slice()),
        masks: None,
        validity: Validity::UpdateOnHit,
        hit: entry.hit,
        deadline: Some(after_seconds(t, entry.hit)),
        row: blank.row.filled_row(entry.row.as_slice()),
    }
}

/// The same entry, in the memory of a blank one.
pub fn filled(blank: Blank, entry: &Entry) -> Entry
    requires keys { HoldsKeys blank.keys entry.now.keys }
    requires masks { IfSome entry.now.masks (HoldsKeys blank.masks) }
    requires row { HoldsRow blank.row entry.now.row }
    ensures { result ≡ entry.now }
{
    Entry {
        keys: blank.keys.filled(entry.keys.as_slice()),
        masks: blank.masks.filled_if(&entry.masks),
        validity: entry.validity,
        hit: entry.hit,
        deadline: entry.deadline,
        row: blank.row.filled_row(entry.row.as_slice()),
    }
}

pub fn copied(entry: &Entry) -> Result<Entry, NoMemory>
    ensures { IfOk result (λ e. e ≡ entry.now) }
{
    Ok(Entry {
        keys: entry.keys.clone()?,
        masks: entry.masks.clone()?,
        validity: entry.validity,
        hit: entry.hit,
        deadline: entry.deadline,
        row: entry.row.clone()?,
    })
}
