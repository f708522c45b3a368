ghost use Rattle.std.specs.Prelude.{◌≡◌, ◌<◌, ◌≤◌, ◌↔◌, true, length, IfOk, OnOk};
ghost use Rattle.db_model.specs.Fitting.{question_fits, log_fits};
ghost use Rattle.db_model.specs.Replay.{Agrees, differs, same_answer};
ghost use Rattle.db_model.specs.Session.{ask};
ghost use Rattle.op_log.specs.Checked.{answer_of, unless_same};

use crate::copies;
use crate::transcript::{Check, Transcript};
use db_laws::differs_nowhere;
use db_model::{Answer, Answers, MOST_QUESTIONS, NoMemory, Question, STAMP_END, Stamp};
use session::Session;

/// Asks the questions of a log again in order, on a copy of the session.
pub fn check(log: &Transcript, session: &Session, t: Stamp) -> Result<Check, NoMemory>
    requires most { length log.now ≤ MOST_QUESTIONS }
    requires fits { log_fits session.now.database log.now ≡ true }
    requires time { t < STAMP_END }
    ensures answer { IfOk result (λ c. c ≡ answer_of (differs session.now.database t log.now session.now.content)) }
    ensures agrees { IfOk result (λ c. (c ≡ Check.Agrees) ↔ Agrees session.now.database t log.now session.now.content) }
{
    differs_nowhere();
    let mut copy = session.copy()?;
    let pairs = log.as_slice();
    for (index, pair) in pairs.iter().enumerate() {
        if let Some((old, new)) = differing(&mut copy, pair, t)? {
            return Ok(Check::Differs {
                index: index as u32,
                old,
                new,
            });
        }
    }
    Ok(Check::Agrees)
}

/// Asks the question of a pair. Where the answer isn't the noted one, the noted answer and the new one.
fn differing(
    session: &mut Session,
    pair: &(Question, Answer),
    t: Stamp,
) -> Result<Option<(Answer, Answer)>, NoMemory>
    requires fits { question_fits session.old.database pair.now.0 ≡ true }
    requires time { t < STAMP_END }
    ensures database { session.new.database ≡ session.old.database }
    ensures content { OnOk result (session.new.content
        ≡ (ask session.old.database session.old.content pair.now.0 t).1) }
    ensures answers { IfOk result (λ o. o
        ≡ unless_same pair.now.1 (ask session.old.database session.old.content pair.now.0 t).0) }
{
    let (question, noted) = pair;
    let answer = session.ask(question, t)?;
    if is_same(&answer, noted) {
        return Ok(None);
    }
    Ok(Some((copies::answer(noted)?, answer)))
}

/// Whether two answers are the same.
fn is_same(answer: &Answer, other: &Answer) -> bool
    ensures { result ≡ same_answer answer.now other.now }
{
    answer == other
}
