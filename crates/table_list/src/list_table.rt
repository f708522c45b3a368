ghost use Rattle.std.specs.Prelude.{◌≡◌, ◌+◌, ◌<◌, ◌≤◌, true, false, length, slice_get, IfOk, IfSome};
ghost use Rattle.std.specs.List.{list_any};
ghost use Rattle.db_model.specs.Table.{same_place};
ghost use Rattle.table_list.specs.Lists.{part, limit, part_fits, appended};
ghost use Rattle.table_list.specs.State.{new_table};

use crate::blank::Ready;
use crate::lists::Lists;
use crate::space::{Space, key_space, row_space};
use crate::{blank, declaration, entry};
use db_laws::{table_fits, table_keeps};
use db_model::{Answer, Entry, Keys, NewEntry, NoMemory, Stamp, Table, TableDecl};
use std::alloc::Global;
use std::marker::Model;

/// A table as its two lists of entries, in the order of adding.
#[derive(Drop)]
pub struct ListTable {
    alloc: Global,
    declaration: TableDecl,
    keys: Space,
    row: Space,
    lists: Lists,
    ready: Vec<Ready>,
}

impl Model for ListTable {
    ghost use Rattle.std.specs.Prelude.{length};
    ghost use Rattle.table_list.specs.Lists.{content, IsSound};
    ghost use Rattle.table_list.specs.State.{State};

    ghost Value = { State };

    ghost view = { λ t. record {
      declaration = t.declaration;
      content = content t.lists;
      spare = length t.ready.items;
    } };

    ghost invariant = { λ t. IsSound t.declaration t.keys t.row t.lists t.ready.items };
}

impl ListTable {
    /// A table to which nothing was added, without room for a call.
    pub fn new(alloc: Global, decl: &TableDecl) -> Result<ListTable, NoMemory>
        ensures { IfOk result (λ t. t ≡ new_table decl.now) }
    {
        Ok(ListTable {
            alloc,
            keys: key_space(decl),
            row: row_space(decl),
            declaration: declaration::copied(alloc, decl)?,
            lists: Lists::new(alloc),
            ready: Vec::new(alloc),
        })
    }

    /// A table with the same declaration and the same lists, without room for a call.
    pub fn copy(&self) -> Result<ListTable, NoMemory>
        ensures declaration { IfOk result (λ t. t.declaration ≡ self.now.declaration) }
        ensures content { IfOk result (λ t. t.content ≡ self.now.content) }
    {
        Ok(ListTable {
            alloc: self.alloc,
            keys: self.keys,
            row: self.row,
            declaration: declaration::copied(self.alloc, &self.declaration)?,
            lists: self.lists.copied(self.alloc)?,
            ready: Vec::new(self.alloc),
        })
    }

    /// The entry at a place, counted from 0, of the masked part or of the exact one. None: the part has no such place.
    pub fn entry(&self, masked: bool, at: u32) -> Result<Option<Entry>, NoMemory>
        ensures entry { IfOk result (λ e. e ≡ slice_get (part masked self.now.content) at) }
        ensures fits { IfOk result (λ e. IfSome e (λ x. part_fits masked self.now.declaration x ≡ true)) }
    {
        match sqlite_items::at(self.lists.part(masked), at as usize) {
            Some(found) => Ok(Some(entry::copied(found)?)),
            None => Ok(None),
        }
    }

    /// Adds an entry with its deadline at the end of the masked part or of the exact one. It is such as the part
    /// keeps, and no entry of the part has its keys and masks. Takes no memory.
    pub fn fill(&mut self, masked: bool, entry: &Entry)
        requires spare { 0 < self.old.spare }
        requires room { length (part masked self.old.content) < limit masked self.old.declaration }
        requires fits { part_fits masked self.old.declaration entry.now ≡ true }
        requires apart { list_any (same_place entry.now) (part masked self.old.content) ≡ false }
        ensures declaration { self.new.declaration ≡ self.old.declaration }
        ensures content { self.new.content ≡ appended masked entry.now self.old.content }
        ensures spare { self.old.spare ≤ self.new.spare + 1 }
    {
        let ready = blank::take(&mut self.ready);
        self.lists.append(masked, entry::filled(ready.entry, entry));
    }
}

impl Table for ListTable {
    ghost declaration = { λ t. t.declaration };

    ghost content = { λ t. t.content };

    ghost spare = { λ t. t.spare };

    fn reserve(&mut self, n: u32) -> Result<(), NoMemory> {
        let calls = self.ready.len().max(n as usize);
        let missing = calls - self.ready.len();
        let mut more = Ready::some(self.alloc, self.keys, self.row, missing)?;
        self.lists.reserve(calls)?;
        self.ready.append(&mut more)?;
        Ok(())
    }

    fn look(&mut self, keys: &Keys, renew: bool, t: Stamp) -> Answer {
        table_keeps();
        table_fits();
        let Some(place) = self.lists.matching_entry(keys, t) else {
            return Answer::Miss;
        };
        let ready = blank::take(&mut self.ready);
        let row = ready
            .answer
            .filled_row(self.lists.entry(place).row.as_slice());
        if renew {
            self.lists
                .renew(&self.declaration, place, ready.entry, keys, t);
        }
        Answer::Hit(row)
    }

    fn add(&mut self, entry: &NewEntry, t: Stamp) {
        table_keeps();
        table_fits();
        let ready = blank::take(&mut self.ready);
        self.lists
            .put(&self.declaration, entry::added(ready.entry, entry, t));
    }
}
