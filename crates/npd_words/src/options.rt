//! Reads the options behind the command, from the left.

ghost use Rattle.std.specs.Prelude.{◌≡◌, ◌+◌, ◌<◌, ◌^◌, [], ◌∷◌, map, length, string_bytes, false, Ok, Err, IfOk, IfErr};
ghost use Rattle.npd_words.specs.Asked.{IfFault};
ghost use Rattle.npd_words.specs.Occurrences.{occurrences};
ghost use Rattle.npd_words.specs.Options.{options};

use crate::fail::fault;
use crate::given::{Given, judged};
use crate::occurrence::read_occurrence;
use crate::{OptionRow, WordsFail};
use db_model::Word;
use std::alloc::Global;

/// The next word: its index, and whether it was taken as a value.
#[derive(Clone, Copy)]
struct Cursor {
    index: u32,
    is_taken: bool,
}

/// Takes an option in, and answers whether the next word is its value.
fn read_option(
    alloc: Global,
    rows: &[OptionRow],
    given: &mut Vec<Given>,
    index: u32,
    word: &str,
    behind: &[String],
) -> Result<bool, WordsFail>
    ensures read { IfOk result (λ taken.
        options rows.now (occurrences (word.now ∷ map string_bytes behind.now) false index) given.old.items
        ≡ options rows.now (occurrences (map string_bytes behind.now) taken (index + 1)) given.new.items) }
    ensures fault { IfErr result (λ e. IfFault e (λ f.
        options rows.now (occurrences (word.now ∷ map string_bytes behind.now) false index) given.old.items ≡ Err f)) }
{
    let found = read_occurrence(word, behind);
    match judged(rows, given.as_slice(), found.name, found.value) {
        Err(cause) => Err(fault(index, cause)),
        Ok((row, text)) => {
            let value = Word::copy_of(alloc, text)?;
            given.push(Given { index, row, value })?;
            Ok(found.takes_next)
        }
    }
}

/// Reads a word, and answers where the next one stands.
fn read_word(
    alloc: Global,
    rows: &[OptionRow],
    given: &mut Vec<Given>,
    cursor: Cursor,
    word: &str,
    behind: &[String],
) -> Result<Cursor, WordsFail>
    requires { cursor.index + 1 < 2 ^ 32 }
    ensures index { IfOk result (λ next. next.index ≡ cursor.index + 1) }
    ensures read { IfOk result (λ next.
        options rows.now (occurrences (word.now ∷ map string_bytes behind.now) cursor.is_taken cursor.index) given.old.items
        ≡ options rows.now (occurrences (map string_bytes behind.now) next.is_taken next.index) given.new.items) }
    ensures fault { IfErr result (λ e. IfFault e (λ f.
        options rows.now (occurrences (word.now ∷ map string_bytes behind.now) cursor.is_taken cursor.index) given.old.items ≡ Err f)) }
{
    let index = cursor.index + 1;
    if cursor.is_taken {
        return Ok(Cursor {
            index,
            is_taken: false,
        });
    }
    let is_taken = read_option(alloc, rows, given, cursor.index, word, behind)?;
    Ok(Cursor { index, is_taken })
}

/// The options that the words behind the command give.
pub fn read_options(
    alloc: Global,
    rows: &[OptionRow],
    words: &[String],
) -> Result<Vec<Given>, WordsFail>
    requires { length words.now + 1 < 2 ^ 32 }
    ensures given { IfOk result (λ given.
        options rows.now (occurrences (map string_bytes words.now) false 1) [] ≡ Ok given.items) }
    ensures fault { IfErr result (λ e. IfFault e (λ f.
        options rows.now (occurrences (map string_bytes words.now) false 1) [] ≡ Err f)) }
{
    let mut given = Vec::new(alloc);
    let mut cursor = Cursor {
        index: 1,
        is_taken: false,
    };
    let mut rest = words;
    while let Some((word, behind)) = rest.split_first() {
        cursor = read_word(alloc, rows, &mut given, cursor, word.as_str(), behind)?;
        rest = behind;
    }
    Ok(given)
}
