ghost use Rattle.std.specs.Prelude.{◌≡◌, ℕ, ◌+◌, ◌<◌, true, Some, IfOk, IfSome, IsSome, OnOk};
ghost use Rattle.db_model.specs.Fitting.{table_fits};
ghost use Rattle.db_model.specs.Kept.{Kept};
ghost use Rattle.db_model.specs.Table.{empty, matching_entry, put, renewed_by};
ghost use Rattle.table_list.specs.Lists.{content, HasRoom, part, appended, replaced};
ghost use Rattle.table_list.specs.Search.{entry_at_place, entry_hit};
ghost use Rattle.table_list.specs.Space.{HoldsKeys, HoldsRow};

use crate::blank::Blank;
use crate::deadline::after_seconds;
use crate::entry::added_on_hit;
use crate::search::Place;
use crate::{putting, search};
use db_model::{Entry, Keys, NoMemory, STAMP_END, Stamp, TableDecl, Validity};
use std::alloc::Global;

/// The two parts of a table, each in the order of adding.
#[derive(Drop)]
pub struct Lists {
    pub exact: Vec<Entry>,
    pub masked: Vec<Entry>,
}

impl Lists {
    pub fn new(alloc: Global) -> Lists
        ensures content { content result ≡ empty }
        ensures room { HasRoom 0 result }
    {
        Lists {
            exact: Vec::new(alloc),
            masked: Vec::new(alloc),
        }
    }

    pub fn copied(&self, alloc: Global) -> Result<Lists, NoMemory>
        ensures content { IfOk result (λ l. content l ≡ content self.now) }
        ensures room { IfOk result (HasRoom 0) }
    {
        Ok(Lists {
            exact: putting::copied(alloc, &self.exact)?,
            masked: putting::copied(alloc, &self.masked)?,
        })
    }

    /// Makes room for so many entries more in each part.
    pub fn reserve(&mut self, count: usize) -> Result<(), NoMemory>
        ensures content { content self.new ≡ content self.old }
        ensures room { OnOk result (HasRoom count self.new) }
        ensures kept { (n : ℕ) → HasRoom n self.old → HasRoom n self.new }
    {
        self.exact.reserve(count)?;
        self.masked.reserve(count)?;
        Ok(())
    }

    /// The masked part, or the exact one.
    pub fn part(&self, masked: bool) -> &[Entry]
        ensures { result.now ≡ part masked (content self.now) }
    {
        if masked {
            self.masked.as_slice()
        } else {
            self.exact.as_slice()
        }
    }

    /// The entry at a place.
    pub fn entry(&self, place: Place) -> &Entry
        requires { IsSome (entry_at_place (content self.now) place) }
        ensures { entry_at_place (content self.now) place ≡ Some result.now }
    {
        match place {
            Place::Exact(at) => &self.exact[at],
            Place::Masked(at) => &self.masked[at],
        }
    }

    /// The exact entry with these keys, if it lives at the moment, else the first masked one that lives and matches.
    #[tactic(auto, using(crate::proofs::Walks::there_within))]
    pub fn matching_entry(&self, keys: &Keys, t: Stamp) -> Option<Place>
        ensures there { IfSome result (λ p. IsSome (entry_at_place (content self.now) p)) }
        ensures entry { entry_hit (content self.now) result ≡ matching_entry (content self.now) keys.now t }
    {
        match search::live_exact(&self.exact, keys, t) {
            Some(at) => Some(Place::Exact(at)),
            None => match search::first_match(&self.masked, keys, t) {
                Some(at) => Some(Place::Masked(at)),
                None => None,
            },
        }
    }

    /// Adds an entry at the end of a part.
    pub fn append(&mut self, masked: bool, entry: Entry)
        requires { HasRoom 1 self.old }
        ensures content { content self.new ≡ appended masked entry (content self.old) }
        ensures room { (n : ℕ) → HasRoom (n + 1) self.old → HasRoom n self.new }
    {
        if masked {
            self.masked.push_reserved(entry);
        } else {
            self.exact.push_reserved(entry);
        }
    }

    /// Puts an entry into its part.
    pub fn put(&mut self, declaration: &TableDecl, entry: Entry)
        requires room { HasRoom 1 self.old }
        requires kept { Kept declaration.now (content self.old) }
        ensures content { content self.new ≡ put declaration.now (content self.old) entry }
        ensures room { (n : ℕ) → HasRoom (n + 1) self.old → HasRoom n self.new }
    {
        if entry.masks.is_some() {
            putting::put(&mut self.masked, declaration.mask_entries, entry);
        } else {
            putting::put(&mut self.exact, declaration.exact_entries, entry);
        }
    }

    /// What a renewing hit changes: an entry of the kind updateonhit gets a new deadline, and one of the kind addonhit
    /// puts an exact entry under the asked keys.
    pub fn renew(
        &mut self,
        declaration: &TableDecl,
        place: Place,
        blank: Blank,
        keys: &Keys,
        t: Stamp,
    )
        requires time { t < STAMP_END }
        requires there { IsSome (entry_at_place (content self.old) place) }
        requires room { HasRoom 1 self.old }
        requires fits { table_fits declaration.now (content self.old) ≡ true }
        requires kept { Kept declaration.now (content self.old) }
        requires keys { HoldsKeys blank.keys keys.now }
        requires row { IfSome (entry_at_place (content self.old) place) (λ e. HoldsRow blank.row e.row) }
        ensures content { IfSome (entry_at_place (content self.old) place) (λ e. content self.new
            ≡ renewed_by e.validity declaration.now (content self.old) keys.now t e) }
        ensures room { (n : ℕ) → HasRoom (n + 1) self.old → HasRoom n self.new }
    {
        let entry = self.entry(place);
        match entry.validity {
            Validity::Forever | Validity::MaxTime => {}
            Validity::UpdateOnHit => {
                let deadline = after_seconds(t, entry.hit);
                self.set_deadline(place, deadline);
            }
            Validity::AddOnHit => {
                let added = added_on_hit(blank, keys, entry, t);
                self.put(declaration, added);
            }
        }
    }

    fn set_deadline(&mut self, place: Place, deadline: Stamp)
        requires { IsSome (entry_at_place (content self.old) place) }
        ensures content { IfSome (entry_at_place (content self.old) place) (λ e. content self.new
            ≡ replaced place (record e { deadline = Some deadline }) (content self.old)) }
        ensures room { (n : ℕ) → HasRoom n self.old → HasRoom n self.new }
    {
        match place {
            Place::Exact(at) => self.exact[at].deadline = Some(deadline),
            Place::Masked(at) => self.masked[at].deadline = Some(deadline),
        }
    }
}
