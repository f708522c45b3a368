ghost use Rattle.std.specs.Prelude.{◌≡◌, ◌++◌, OnOk};
ghost use Rattle.engine.specs.Trace;
ghost use Rattle.engine.specs.declared.receipt.Outcome.TheVariants as outcome;

use crate::receipt::{Outcome, Receipt, Taken, Why};
use db_model::{Answer, NoMemory};
use show::{push, push_number};

fn push_taken(text: &mut Vec<u8>, taken: Option<Taken>) -> Result<(), NoMemory>
    ensures { OnOk result (text.new.items ≡ text.old.items ++ Trace.taken_text taken) }
{
    match taken {
        None => push(text, b"- -"),
        Some(taken) => {
            push_number(text, taken.v)?;
            push(text, b" ")?;
            push_number(text, taken.c)
        }
    }
}

fn answer_word(answer: &Answer) -> &'static str
    ensures { result.now ≡ Trace.answer_word answer.now }
{
    match answer {
        Answer::Miss => "miss",
        Answer::Hit(_) => "hit",
        Answer::Done => "done",
    }
}

fn why_word(why: Why) -> &'static str
    ensures { result.now ≡ Trace.why_word why }
{
    match why {
        Why::Serial => "direct",
        Why::GaveUp => "gaveup",
        Why::NoMemory => "nomemory",
    }
}

fn push_again(text: &mut Vec<u8>, index: u32, old: &Answer, new: &Answer) -> Result<(), NoMemory>
    ensures { OnOk result (text.new.items
        ≡ text.old.items ++ Trace.outcome_text (outcome.Again index old.now new.now)) }
{
    push(text, b"again ")?;
    push_number(text, u64::from(index))?;
    push(text, b" ")?;
    push(text, answer_word(old).as_bytes())?;
    push(text, b" ")?;
    push(text, answer_word(new).as_bytes())
}

fn push_outcome(text: &mut Vec<u8>, outcome: &Outcome) -> Result<(), NoMemory>
    ensures { OnOk result (text.new.items ≡ text.old.items ++ Trace.outcome_text outcome.now) }
{
    match outcome {
        Outcome::Kept => push(text, b"kept"),
        Outcome::Again { index, old, new } => push_again(text, *index, old, new),
        Outcome::Direct(why) => push(text, why_word(*why).as_bytes()),
    }
}

/// Adds the line of a receipt in a trace, with its LF.
pub fn push_trace_line(text: &mut Vec<u8>, receipt: &Receipt) -> Result<(), NoMemory>
    ensures { OnOk result (text.new.items ≡ text.old.items ++ Trace.trace_line receipt.now) }
{
    push_number(text, receipt.number)?;
    push(text, b" ")?;
    push_taken(text, receipt.taken)?;
    push(text, b" ")?;
    push_outcome(text, &receipt.outcome)?;
    push(text, b"\n")
}
