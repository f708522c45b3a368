ghost use Rattle.std.specs.Prelude.{◌≡◌, ℕ, ◌<◌, ◌∷◌, [], true, None, Some, slice_get, IfSome};
ghost use Rattle.db_model.specs.Fitting.{question_fits};
ghost use Rattle.db_model.specs.Session.{ask};
ghost use Rattle.db_model.specs.declared.database.Database.{Database};

use crate::asked;
use db_model::{Answer, Answers, CheckedDb, NoMemory, Question, STAMP_END, Stamp, Table};
use std::alloc::Global;
use table_list::ListTable;

/// Answers out of a session without tables.
#[derive(Drop)]
pub struct NoTables<'a> {
    pub db: &'a CheckedDb,
}

impl Answers for NoTables<'_> {
    ghost database = { λ s. s.db.now };

    ghost content = { λ s. [] };

    ghost told = { λ s. None };

    fn ask(&mut self, question: &Question, _t: Stamp) -> Result<Answer, NoMemory> {
        Ok(nothing(question))
    }
}

/// What a session without tables answers.
fn nothing(question: &Question) -> Answer
    ensures { (db : Database) (t : ℕ) → ask db [] question.now t ≡ (result, []) }
{
    match question {
        Question::Look { .. } => Answer::Miss,
        Question::Add { .. } => Answer::Done,
    }
}

/// Answers out of a session that has the first table of its database alone, and notes each question as a line.
#[derive(Drop)]
pub struct FirstTable<'a> {
    alloc: Global,
    db: &'a CheckedDb,
    table: ListTable,
    asked: String,
    ghost declared: { slice_get db.now.tables 0 ≡ Some table.declaration },
}

impl<'a> FirstTable<'a> {
    /// Nothing was added yet. None: memory was refused, or the database has no table.
    pub fn new(alloc: Global, db: &'a CheckedDb) -> Option<FirstTable<'a>>
        ensures { IfSome result (λ a. a.db.now ≡ db.now) }
    {
        let declaration = db.database().tables.get(0)?;
        let table = ListTable::new(alloc, declaration).ok()?;
        Some(FirstTable {
            alloc,
            db,
            table,
            asked: String::new(alloc),
        })
    }

    /// The lines of the questions so far.
    pub fn into_asked(self) -> String {
        self.asked
    }
}

impl Answers for FirstTable<'_> {
    ghost database = { λ s. s.db.now };

    ghost content = { λ s. s.table.content ∷ [] };

    ghost told = { λ s. None };

    fn ask(&mut self, question: &Question, t: Stamp) -> Result<Answer, NoMemory> {
        self.table.reserve(1)?;
        let answer = answer_of(self.db, &mut self.table, question, t);
        note(self.alloc, &mut self.asked, question, &answer);
        Ok(answer)
    }
}

/// Without memory for it the line isn't whole.
fn note(alloc: Global, asked: &mut String, question: &Question, answer: &Answer) {
    let _ = asked::write(alloc, asked, question, answer);
}

/// Answers out of a session of one table.
fn answer_of(db: &CheckedDb, table: &mut ListTable, question: &Question, t: Stamp) -> Answer
    requires room { 0 < table.old.spare }
    requires declared { slice_get db.now.tables 0 ≡ Some table.old.declaration }
    requires fits { question_fits db.now question.now ≡ true }
    requires time { t < STAMP_END }
    ensures declaration { table.new.declaration ≡ table.old.declaration }
    ensures answer { ask db.now (table.old.content ∷ []) question.now t ≡ (result, table.new.content ∷ []) }
{
    match question {
        Question::Look {
            table: number,
            keys,
            renew,
        } => {
            if *number == 0 {
                table.look(keys, *renew, t)
            } else {
                Answer::Miss
            }
        }
        Question::Add {
            table: number,
            entry,
        } => {
            if *number == 0 {
                table.add(entry, t);
                Answer::Done
            } else {
                Answer::Done
            }
        }
    }
}
