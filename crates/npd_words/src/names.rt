//! What is looked at when all options are read: whether one is missing, and whether two files have one name.

ghost use Rattle.std.specs.Prelude.{◌≡◌, []};
ghost use Rattle.npd_words.specs.Names;
ghost use Rattle.npd_words.specs.Options;

use crate::given::{Given, is_given};
use crate::{Form, Need, OptionRow};

fn is_required(need: Need) -> bool
    ensures { result ≡ Names.is_required need }
{
    matches!(need, Need::Required)
}

/// Whether a required option was not given.
pub fn lacks(given: &[Given], rows: &[OptionRow]) -> bool
    ensures { result ≡ Names.lacks given.now rows.now }
{
    for row in rows {
        if is_required(row.need) && !is_given(given, row.option.spelled()) {
            return true;
        }
    }
    false
}

/// Whether two values that are one text can't stand beside each other: two inputs or two outputs, or an input and an
/// output other than standard input and standard output.
fn collide(one: Form, other: Form, is_standard: bool) -> bool
    ensures { result ≡ Names.collide one other is_standard }
{
    match (one, other) {
        (Form::Input, Form::Input) | (Form::Output, Form::Output) => true,
        (Form::Input, Form::Output) | (Form::Output, Form::Input) => !is_standard,
        _ => false,
    }
}

fn is_same(one: &Given, other: &Given) -> bool
    ensures { result ≡ Names.is_same one.now other.now }
{
    let name = one.value.as_str();
    name == other.value.as_str() && collide(one.row.form, other.row.form, name == "-")
}

/// Whether one of these has the name of another one.
fn has_same(given: &[Given], other: &Given) -> bool
    ensures { result ≡ Names.has_same given.now other.now }
{
    for one in given {
        if is_same(one, other) {
            return true;
        }
    }
    false
}

/// The index of the first option whose file an earlier one names.
pub fn same_name(given: &[Given]) -> Option<u32>
    ensures { result ≡ Names.same_name [] given.now }
{
    for (i, other) in given.iter().enumerate() {
        if has_same(&given[..i], other) {
            return Some(other.index);
        }
    }
    None
}
