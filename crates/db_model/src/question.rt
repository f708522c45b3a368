ghost use Rattle.std.specs.Prelude.{◌≡◌, ◌<◌, Option, true};
ghost use Rattle.db_model.specs.Fitting.{question_fits};
ghost use Rattle.db_model.specs.Over.{AnswersTo};
ghost use Rattle.db_model.specs.Questions.{Log};
ghost use Rattle.db_model.specs.Session.{Session};
ghost use Rattle.db_model.specs.declared.database.Database.{Database};

use crate::{Keys, NewEntry, NoMemory, Row, STAMP_END, Stamp};

/// What a decoding asks of a session. Tables are numbered in the order of declaration, from 0.
#[derive(Clone, Drop, PartialEq)]
pub enum Question {
    Look { table: u8, keys: Keys, renew: bool },
    Add { table: u8, entry: NewEntry },
}

/// What a session answers: a look-up is a miss or a hit with a row, an addition is done.
#[derive(Clone, Drop, PartialEq)]
pub enum Answer {
    Miss,
    Hit(Row),
    Done,
}

/// What a decoding asks its questions of. It has the content of a session of one database, and may tell the
/// list of the pairs of question and answer that it gave since it was made.
pub trait Answers {
    ghost database: { Self → Database };

    ghost content: { Self → Session };

    ghost told: { Self → Option Log };

    /// Answers a question that fits the database as the content does at the moment `t`. A refusal of memory
    /// changes nothing.
    fn ask(&mut self, question: &Question, t: Stamp) -> Result<Answer, NoMemory>
        requires fits { question_fits (database self.old) question.now ≡ true }
        requires time { t < STAMP_END }
        ensures database { database self.new ≡ database self.old }
        ensures answer { AnswersTo (database self.old) t question.now result (content self.old) (told self.old) (content self.new) (told self.new) };
}
