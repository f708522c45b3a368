ghost use Rattle.std.specs.Prelude.{◌≡◌, ◌<◌, [], true, false, IfOk};
ghost use Rattle.db_model.specs.declared.question.Question.TheVariants.{Look};
ghost use Rattle.db_model.specs.Fitting.{question_fits};
ghost use Rattle.db_model.specs.Session.{ask};
ghost use Rattle.op_log.specs.Overlay.{AreAnswers, Twice};

use crate::copies;
use crate::transcript::Transcript;
use db_model::{Answer, Answers, Keys, NoMemory, Question, STAMP_END, Sequence, Stamp};
use session::{Session, SessionView};
use std::alloc::Global;
use std::marker::Model;

/// A session of its own, begun as a view has it, that notes each question with the answer that it gave.
#[derive(Drop)]
pub struct Overlay {
    session: Session,
    pairs: Vec<(Question, Answer)>,
}

impl Model for Overlay {
    ghost use Rattle.db_model.specs.contracts.database.Database as database;
    ghost use Rattle.db_model.specs.contracts.entry.Entry as entry;
    ghost use Rattle.db_model.specs.contracts.question.Question as question;
    ghost use Rattle.db_model.specs.contracts.question.Answer as answer;
    ghost use Rattle.op_log.specs.Overlay.{Noting, noting_code};

    ghost Value = { Noting };

    ghost coded = { noting_code database.the_row.coded entry.the_row.coded question.the_row.coded answer.the_row.coded };

    ghost view = { λ o. record {
      database = o.session.database;
      content = o.session.content;
      log = o.pairs.items;
    } };
}

impl Overlay {
    /// One that has noted nothing.
    pub fn on(alloc: Global, view: &SessionView) -> Result<Overlay, NoMemory>
        ensures database { IfOk result (λ o. o.database ≡ view.now.database) }
        ensures content { IfOk result (λ o. o.content ≡ view.now.content) }
        ensures log { IfOk result (λ o. o.log ≡ []) }
    {
        Ok(Overlay {
            session: view.open()?,
            pairs: Vec::new(alloc),
        })
    }

    /// What it noted. Takes no memory.
    pub fn into_transcript(self) -> Transcript
        ensures { result ≡ self.log }
    {
        let Overlay { session: _, pairs } = self;
        Sequence::from_vec(pairs)
    }
}

impl Answers for Overlay {
    ghost use Rattle.std.specs.Prelude.{Some};

    ghost database = { λ o. o.database };

    ghost content = { λ o. o.content };

    ghost told = { λ o. Some o.log };

    fn ask(&mut self, question: &Question, t: Stamp) -> Result<Answer, NoMemory> {
        let asked = copies::question(question)?;
        self.pairs.reserve(1)?;
        let (answer, noted) = answered_twice(&mut self.session, question, t)?;
        self.pairs.push_reserved((asked, noted));
        Ok(answer)
    }
}

/// The answer of a session, and a copy of it. A refusal of memory changes nothing: a question that renews is asked
/// when the copy is there.
fn answered_twice(
    session: &mut Session,
    question: &Question,
    t: Stamp,
) -> Result<(Answer, Answer), NoMemory>
    requires fits { question_fits session.old.database question.now ≡ true }
    requires time { t < STAMP_END }
    ensures database { session.new.database ≡ session.old.database }
    ensures answers { Twice session.old.database t question.now session.old.content result session.new.content }
{
    match question {
        Question::Add { .. } => {
            let _done = session.ask(question, t)?;
            Ok((Answer::Done, Answer::Done))
        }
        Question::Look { table, keys, renew } => {
            let (answer, noted) = looked_up(session, *table, keys, t)?;
            if *renew {
                let _renewed = session.ask(question, t)?;
            }
            Ok((answer, noted))
        }
    }
}

/// The answer of a look-up that doesn't renew, and a copy of it. It leaves the session.
fn looked_up(
    session: &mut Session,
    table: u8,
    keys: &Keys,
    t: Stamp,
) -> Result<(Answer, Answer), NoMemory>
    requires fits { question_fits session.old.database (Look table keys.now false) ≡ true }
    requires time { t < STAMP_END }
    ensures database { session.new.database ≡ session.old.database }
    ensures content { session.new.content ≡ session.old.content }
    ensures answers { IfOk result (AreAnswers (ask session.old.database session.old.content
        (Look table keys.now false) t).0) }
{
    let question = copies::plain_look(table, keys)?;
    let answer = session.ask(&question, t)?;
    let noted = copies::answer(&answer)?;
    Ok((answer, noted))
}
