//! The options that were given so far, and whether one more may stand beside them.

ghost use Rattle.std.specs.Prelude.{◌≡◌, IfOk, IfErr, Ok, Err, option_map};
ghost use Rattle.std.specs.Option.{option_copied};
ghost use Rattle.npd_words.specs.Options;

use crate::number::fits;
use crate::{Cause, OptionName, OptionRow};
use db_model::Word;

/// An option that was given: the index of its word, its row and its value.
#[derive(Drop)]
pub struct Given {
    pub index: u32,
    pub row: OptionRow,
    pub value: Word,
}

/// The row of the option that is written so.
fn row_of(rows: &[OptionRow], name: &str) -> Option<OptionRow>
    ensures { result ≡ Options.row_of rows.now name.now }
{
    for row in rows {
        if name == row.option.spelled() {
            return Some(*row);
        }
    }
    None
}

/// Whether the option that is written so was given.
pub fn is_given(given: &[Given], name: &str) -> bool
    ensures { result ≡ Options.is_given given.now name.now }
{
    for one in given {
        if name == one.row.option.spelled() {
            return true;
        }
    }
    false
}

/// The value of an option, where it was given.
pub fn value_of(given: &[Given], option: OptionName) -> Option<&str>
    ensures { option_map (λ v. v.now) result ≡ Options.value_of given.now option }
{
    for one in given {
        if option.spelled() == one.row.option.spelled() {
            return Some(one.value.as_str());
        }
    }
    None
}

/// The value that an option is given, or the cause of its fault.
fn judged_value(row: OptionRow, value: Option<&str>) -> Result<(OptionRow, &str), Cause>
    ensures row { IfOk result (λ r. Options.judged_value row (option_copied value.entry) ≡ Ok (r.0, r.1.now)) }
    ensures cause { IfErr result (λ c. Options.judged_value row (option_copied value.entry) ≡ Err c) }
{
    match value {
        None => Err(Cause::NoValue),
        Some(text) => {
            if text.is_empty() {
                Err(Cause::EmptyValue)
            } else if fits(row.form, text) {
                Ok((row, text))
            } else {
                Err(Cause::NoNumber)
            }
        }
    }
}

/// The row and the value of an option that is written so behind those that were given, or the cause of its fault.
pub fn judged<'a>(
    rows: &[OptionRow],
    given: &[Given],
    name: &str,
    value: Option<&'a str>,
) -> Result<(OptionRow, &'a str), Cause>
    ensures row { IfOk result
        (λ r. Options.judged rows.now given.now name.now (option_copied value.entry) ≡ Ok (r.0, r.1.now)) }
    ensures cause { IfErr result (λ c. Options.judged rows.now given.now name.now (option_copied value.entry) ≡ Err c) }
{
    match row_of(rows, name) {
        None => Err(Cause::UnknownOption),
        Some(row) => {
            if is_given(given, name) {
                Err(Cause::SecondTime)
            } else {
                judged_value(row, value)
            }
        }
    }
}
