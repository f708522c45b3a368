ghost use Rattle.std.specs.Prelude.{◌≡◌, ◌<◌, true, slice_set, Some};
ghost use Rattle.expr_eval.specs.Reads.{looked_up};
ghost use Rattle.db_model.specs.Fitting.{question_fits};
ghost use Rattle.db_model.specs.declared.question.Question.TheVariants.{Look};
ghost use Rattle.expr_eval.specs.Yields.{Counts};

use crate::EvalEnd;
use db_model::{Answer, Answers, CheckedDb, Env, Keys, Question, Reason, Row, STAMP_END};

/// The number of the table that a look-up asks in, and whether a hit renews the entry.
#[derive(Clone, Copy)]
pub struct Asked {
    pub table: usize,
    pub renew: bool,
}

/// Asks for the keys in the table of this number, where a hit is 1. Questions: none is left.
pub fn look<A: Answers>(
    db: &CheckedDb,
    table: u8,
    keys: Keys,
    renew: bool,
    env: &mut Env,
    answers: &mut A,
) -> Result<u32, EvalEnd>
    requires database { A.database answers.old ≡ db.now }
    requires time { env.old.packet.stamp < STAMP_END }
    requires fits { question_fits db.now (Look table keys renew) ≡ true }
    ensures database { A.database answers.new ≡ A.database answers.old }
    ensures packet { env.new.packet ≡ env.old.packet }
    ensures value { Counts A.content A.told db.now (looked_up table keys renew)
        (env.old, answers.old) result (env.new, answers.new) }
{
    if env.questions == 0 {
        return Err(EvalEnd::Fault(Reason::Questions));
    }
    env.questions -= 1;
    let question = Question::Look { table, keys, renew };
    match answers.ask(&question, env.packet.stamp)? {
        Answer::Hit(row) => {
            note_hit(env, table as usize, row);
            Ok(1)
        }
        Answer::Miss | Answer::Done => Ok(0),
    }
}

/// Notes the row last hit of a table.
fn note_hit(env: &mut Env, table: usize, row: Row)
    ensures { env.new ≡ record env.old { hits = slice_set env.old.hits table (Some row) } }
{
    if table < env.hits.len() {
        env.hits.set(table, Some(row));
    }
}
