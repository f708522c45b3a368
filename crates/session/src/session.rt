ghost use Rattle.std.specs.Prelude.{◌≡◌, ◌+◌, ◌<◌, ◌≤◌, true, false, length, IfOk, IfSome, OnOk, OnErr};
ghost use Rattle.std.specs.List.{list_any};
ghost use Rattle.db_model.specs.declared.question.Question.TheVariants.{Look, Add};
ghost use Rattle.db_model.specs.Fitting.{question_fits, session_fits};
ghost use Rattle.db_model.specs.Session.{ask};
ghost use Rattle.db_model.specs.Table.{same_place};
ghost use Rattle.session.specs.Entries.{entry_in, part_in, limit_in, fits_in, filled};
ghost use Rattle.session.specs.State.{new_session, view_of};

use crate::any_table::AnyTable;
use crate::of_database::OfDatabase;
use crate::tables;
use crate::view::SessionView;
use db_laws::{declared_fits, fits_stay, table_of_question};
use db_model::{
    Answer, Answers, CheckedDb, Entry, Keys, NewEntry, NoMemory, Question, STAMP_END, Stamp, Table,
};
use std::alloc::Global;
use std::marker::Model;

/// All tables of a database, in the order of declaration.
#[derive(Drop)]
pub struct Session {
    alloc: Global,
    of: OfDatabase,
    tables: Vec<AnyTable>,
    /// Each table has room for at least so many calls.
    spare: u32,
}

impl Model for Session {
    ghost use Rattle.db_model.specs.contracts.database.Database as database;
    ghost use Rattle.db_model.specs.contracts.entry.Entry as entry;
    ghost use Rattle.session.specs.State.{State, state_code};

    ghost Value = { State };

    ghost coded = { state_code database.the_row.coded entry.the_row.coded };

    ghost use Rattle.session.specs.Tables.{contents, IsSound};

    ghost view = { λ s. record {
      database = s.of.database;
      content = contents s.tables.items;
      spare = s.spare;
    } };

    ghost invariant = { λ s. IsSound s.of.database s.tables.items s.spare };
}

impl Session {
    /// The session of a database to which nothing was added, without room for a question.
    pub fn new(alloc: Global, db: &CheckedDb) -> Result<Session, NoMemory>
        ensures { IfOk result (λ s. s ≡ new_session db.now) }
    {
        declared_fits();
        Ok(Session {
            alloc,
            of: OfDatabase::new(db),
            tables: tables::new(alloc, db.database().tables.as_slice())?,
            spare: 0,
        })
    }

    /// What a session holds fits its database.
    pub fn fits(&self)
        ensures { session_fits self.now.database self.now.content ≡ true }
    {
        let _ = &self.alloc;
    }

    /// Makes room for `n` questions. A refusal changes nothing.
    pub fn reserve(&mut self, n: u32) -> Result<(), NoMemory>
        ensures database { self.new.database ≡ self.old.database }
        ensures content { self.new.content ≡ self.old.content }
        ensures room { OnOk result ((n ≤ self.new.spare) × (self.old.spare ≤ self.new.spare)) }
        ensures refused { OnErr result (self.new.spare ≡ self.old.spare) }
    {
        if self.spare < n {
            tables::reserve(&mut self.tables, n)?;
            self.spare = n;
        }
        Ok(())
    }

    /// Answers a question that fits the database at the moment `t`. Takes no memory and can't fail.
    pub fn put(&mut self, question: &Question, t: Stamp) -> Answer
        requires room { 0 < self.old.spare }
        requires fits { question_fits self.old.database question.now ≡ true }
        requires time { t < STAMP_END }
        ensures database { self.new.database ≡ self.old.database }
        ensures answer { result ≡ (ask self.old.database self.old.content question.now t).0 }
        ensures content { self.new.content ≡ (ask self.old.database self.old.content question.now t).1 }
        ensures spare { self.old.spare ≤ self.new.spare + 1 }
    {
        match question {
            Question::Look { table, keys, renew } => self.look(*table, keys, *renew, t),
            Question::Add { table, entry } => {
                self.add(*table, entry, t);
                Answer::Done
            }
        }
    }

    fn look(&mut self, table: u8, keys: &Keys, renew: bool, t: Stamp) -> Answer
        requires room { 0 < self.old.spare }
        requires fits { question_fits self.old.database (Look table keys.now renew) ≡ true }
        requires time { t < STAMP_END }
        ensures database { self.new.database ≡ self.old.database }
        ensures answer { result ≡ (ask self.old.database self.old.content (Look table keys.now renew) t).0 }
        ensures content { self.new.content ≡ (ask self.old.database self.old.content (Look table keys.now renew) t).1 }
        ensures spare { self.old.spare ≤ self.new.spare + 1 }
    {
        table_of_question();
        fits_stay();
        self.spare -= 1;
        self.tables[table as usize].look(keys, renew, t)
    }

    fn add(&mut self, table: u8, entry: &NewEntry, t: Stamp)
        requires room { 0 < self.old.spare }
        requires fits { question_fits self.old.database (Add table entry.now) ≡ true }
        requires time { t < STAMP_END }
        ensures database { self.new.database ≡ self.old.database }
        ensures content { self.new.content ≡ (ask self.old.database self.old.content (Add table entry.now) t).1 }
        ensures spare { self.old.spare ≤ self.new.spare + 1 }
    {
        table_of_question();
        fits_stay();
        self.spare -= 1;
        self.tables[table as usize].add(entry, t);
    }

    /// A view that keeps the content of this moment. A refusal changes nothing.
    pub fn snapshot(&mut self) -> Result<SessionView, NoMemory>
        ensures unchanged { self.new ≡ self.old }
        ensures view { IfOk result (λ v. v ≡ view_of self.old) }
    {
        SessionView::of(self)
    }

    /// A session with the same content, without room for a question.
    pub fn copy(&self) -> Result<Session, NoMemory>
        ensures database { IfOk result (λ s. s.database ≡ self.now.database) }
        ensures content { IfOk result (λ s. s.content ≡ self.now.content) }
    {
        Ok(Session {
            alloc: self.alloc,
            of: self.of.again(),
            tables: tables::copied(self.alloc, &self.tables)?,
            spare: 0,
        })
    }

    /// The entry at a place, counted from 0, of the masked part or of the exact one of a declared table. None: the
    /// part has no such place.
    pub fn entry(&self, table: u8, masked: bool, at: u32) -> Result<Option<Entry>, NoMemory>
        requires { table < length self.now.database.tables }
        ensures entry { IfOk result (λ e. e ≡ entry_in self.now.content table masked at) }
        ensures fits { IfOk result (λ e. IfSome e (λ x. fits_in self.now.database table masked x ≡ true)) }
    {
        self.tables[table as usize].entry(masked, at)
    }

    /// Adds an entry with its deadline at the end of the masked part or of the exact one of a declared table. It is
    /// such as the part keeps, and no entry of the part has its keys and masks. Takes no memory.
    pub fn fill(&mut self, table: u8, masked: bool, entry: &Entry)
        requires spare { 0 < self.old.spare }
        requires fits { fits_in self.old.database table masked entry.now ≡ true }
        requires room { length (part_in self.old.content table masked) < limit_in self.old.database table masked }
        requires apart { list_any (same_place entry.now) (part_in self.old.content table masked) ≡ false }
        ensures database { self.new.database ≡ self.old.database }
        ensures content { self.new.content ≡ filled self.old.content table masked entry.now }
        ensures spare { self.old.spare ≤ self.new.spare + 1 }
    {
        self.spare -= 1;
        self.tables[table as usize].fill(masked, entry);
    }
}

impl Answers for Session {
    ghost use Rattle.std.specs.Prelude.{None};

    ghost database = { λ s. s.database };

    ghost content = { λ s. s.content };

    ghost told = { λ s. None };

    fn ask(&mut self, question: &Question, t: Stamp) -> Result<Answer, NoMemory> {
        self.reserve(1)?;
        Ok(self.put(question, t))
    }
}
