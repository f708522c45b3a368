//! A question as a line: a look-up with its answer, or an addition.

use crate::hexadecimal;
use db_model::{Answer, Bytes, NewEntry, Question, Validity, Value};
use std::alloc::Global;

/// Puts the line of a question behind a text.
pub fn write(alloc: Global, text: &mut String, question: &Question, answer: &Answer) -> Option<()> {
    match question {
        Question::Look { table, keys, renew } => {
            text.push_str(if *renew { "renew" } else { "look" }).ok()?;
            number(alloc, text, u32::from(*table))?;
            list(text, keys.as_slice())?;
            text.push(':').ok()?;
            answered(alloc, text, answer)?;
        }
        Question::Add { table, entry } => {
            text.push_str("add").ok()?;
            number(alloc, text, u32::from(*table))?;
            added(alloc, text, entry)?;
        }
    }
    text.push('\n').ok()
}

fn number(alloc: Global, text: &mut String, n: u32) -> Option<()> {
    let digits = format!(in alloc; " {n}").ok()?;
    text.push_str(digits.as_str()).ok()
}

fn list(text: &mut String, keys: &[Bytes]) -> Option<()> {
    for key in keys {
        text.push(' ').ok()?;
        hexadecimal::write(text, key.as_slice())?;
    }
    Some(())
}

/// The values of a row: a number, bytes behind `=`, a protocol behind `#`.
fn row(alloc: Global, text: &mut String, values: &[Value]) -> Option<()> {
    for value in values {
        match value {
            Value::Num(n) => number(alloc, text, *n)?,
            Value::Buf(bytes) => {
                text.push_str(" =").ok()?;
                hexadecimal::write(text, bytes.as_slice())?;
            }
            Value::Proto(p) => {
                let digits = format!(in alloc; " #{p}").ok()?;
                text.push_str(digits.as_str()).ok()?;
            }
        }
    }
    Some(())
}

fn answered(alloc: Global, text: &mut String, answer: &Answer) -> Option<()> {
    match answer {
        Answer::Miss => text.push_str(" miss").ok(),
        Answer::Done => text.push_str(" done").ok(),
        Answer::Hit(values) => {
            text.push_str(" hit").ok()?;
            row(alloc, text, values.as_slice())
        }
    }
}

fn word(validity: Validity) -> &'static str {
    match validity {
        Validity::Forever => " keepforever",
        Validity::MaxTime => " keepmaxtime",
        Validity::UpdateOnHit => " updateonhit",
        Validity::AddOnHit => " addonhit",
    }
}

/// The kind of an entry with its seconds, its keys, its masks where it has them, and its row.
fn added(alloc: Global, text: &mut String, entry: &NewEntry) -> Option<()> {
    text.push_str(word(entry.validity)).ok()?;
    number(alloc, text, entry.keep)?;
    number(alloc, text, entry.hit)?;
    text.push_str(" keys").ok()?;
    list(text, entry.keys.as_slice())?;
    if let Some(masks) = &entry.masks {
        text.push_str(" masks").ok()?;
        list(text, masks.as_slice())?;
    }
    text.push_str(" row").ok()?;
    row(alloc, text, entry.row.as_slice())
}
