ghost use Rattle.std.specs.Prelude.{◌≡◌, ◌+◌, ◌<◌, ◌≤◌, true, false, length, slice_get, IfOk, IfSome};
ghost use Rattle.std.specs.List.{list_any};
ghost use Rattle.db_model.specs.Table.{same_place};
ghost use Rattle.table_list.specs.Lists.{part, limit, part_fits, appended};
ghost use Rattle.table_list.specs.State.{new_table};

use db_model::{Answer, Entry, Keys, NewEntry, NoMemory, Stamp, Table, TableDecl};
use std::alloc::Global;
use std::marker::Model;
use table_list::ListTable;

/// The forms of a table. Each is one of the definition's tables, so which one a declaration gets changes no answer.
#[derive(Drop)]
pub enum Form {
    List(ListTable),
}

/// A table in one of its forms.
#[derive(Drop)]
pub struct AnyTable {
    form: Form,
}

impl Model for AnyTable {
    ghost use Rattle.table_list.specs.State.{State};

    ghost Value = { State };

    ghost use Rattle.session.specs.Forms.{state_of};

    ghost view = { λ t. state_of t.form };
}

impl AnyTable {
    /// A table to which nothing was added, without room for a call.
    pub fn new(alloc: Global, declaration: &TableDecl) -> Result<AnyTable, NoMemory>
        ensures { IfOk result (λ t. t ≡ new_table declaration.now) }
    {
        Ok(AnyTable {
            form: Form::List(ListTable::new(alloc, declaration)?),
        })
    }

    /// A table with the same declaration and the same lists, without room for a call.
    pub fn copy(&self) -> Result<AnyTable, NoMemory>
        ensures declaration { IfOk result (λ t. t.declaration ≡ self.now.declaration) }
        ensures content { IfOk result (λ t. t.content ≡ self.now.content) }
    {
        Ok(AnyTable {
            form: match &self.form {
                Form::List(table) => Form::List(table.copy()?),
            },
        })
    }

    /// The entry at a place of a part.
    pub fn entry(&self, masked: bool, at: u32) -> Result<Option<Entry>, NoMemory>
        ensures entry { IfOk result (λ e. e ≡ slice_get (part masked self.now.content) at) }
        ensures fits { IfOk result (λ e. IfSome e (λ x. part_fits masked self.now.declaration x ≡ true)) }
    {
        match &self.form {
            Form::List(table) => table.entry(masked, at),
        }
    }

    /// Adds an entry with its deadline at the end of a part. Takes no memory.
    pub fn fill(&mut self, masked: bool, entry: &Entry)
        requires spare { 0 < self.old.spare }
        requires room { length (part masked self.old.content) < limit masked self.old.declaration }
        requires fits { part_fits masked self.old.declaration entry.now ≡ true }
        requires apart { list_any (same_place entry.now) (part masked self.old.content) ≡ false }
        ensures declaration { self.new.declaration ≡ self.old.declaration }
        ensures content { self.new.content ≡ appended masked entry.now self.old.content }
        ensures spare { self.old.spare ≤ self.new.spare + 1 }
    {
        match &mut self.form {
            Form::List(table) => table.fill(masked, entry),
        }
    }
}

impl Table for AnyTable {
    ghost declaration = { λ t. t.declaration };

    ghost content = { λ t. t.content };

    ghost spare = { λ t. t.spare };

    fn reserve(&mut self, n: u32) -> Result<(), NoMemory> {
        match &mut self.form {
            Form::List(table) => table.reserve(n),
        }
    }

    fn look(&mut self, keys: &Keys, renew: bool, t: Stamp) -> Answer {
        match &mut self.form {
            Form::List(table) => table.look(keys, renew, t),
        }
    }

    fn add(&mut self, entry: &NewEntry, t: Stamp) {
        match &mut self.form {
            Form::List(table) => table.add(entry, t),
        }
    }
}
