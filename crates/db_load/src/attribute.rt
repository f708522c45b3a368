//! The faults of the attributes of an element.

ghost use Rattle.std.specs.Prelude.{◌≡◌, [], option_map, IfOk};
ghost use Rattle.std.specs.Option.{option_copied};
ghost use Rattle.db_load.specs.Faults;
ghost use Rattle.db_load.specs.Words.{spelled};

use crate::{Form, Kind, Need, Rule, Word, has_form, is_parsed, rules};
use db_model::NoMemory;
use db_text::Attribute;
use std::alloc::Global;

/// The value of the first attribute of this name.
pub fn value_of<'a>(attributes: &'a [Attribute], word: Word) -> Option<&'a [u8]>
    ensures { option_map (λ v. v.now) result ≡ Faults.value_of attributes.now (spelled word) }
{
    for attribute in attributes {
        if attribute.name.as_slice() == word.spelled() {
            return Some(attribute.value.as_slice());
        }
    }
    None
}

fn has_attribute(attributes: &[Attribute], name: &[u8]) -> bool
    ensures { result ≡ Faults.has_attribute attributes.now name.now }
{
    for attribute in attributes {
        if attribute.name.as_slice() == name {
            return true;
        }
    }
    false
}

/// The form of the type by which further attributes of an element are decided.
fn decided_by(kind: Kind) -> Option<Form>
    ensures { result ≡ Faults.decided_by kind }
{
    match kind {
        Kind::TableColumn => Some(Form::ValueType),
        Kind::Field => Some(Form::FieldType),
        _ => None,
    }
}

/// The type by which further attributes are decided, where it is there and one of the words.
pub fn decided<'a>(
    alloc: Global,
    kind: Kind,
    attributes: &'a [Attribute],
) -> Result<Option<&'a [u8]>, NoMemory>
    ensures { IfOk result (λ d. option_map (λ v. v.now) d ≡ Faults.decided kind attributes.now) }
{
    let Some(form) = decided_by(kind) else {
        return Ok(None);
    };
    match value_of(attributes, Word::Type) {
        Some(value) if has_form(alloc, form, value)? => Ok(Some(value)),
        _ => Ok(None),
    }
}

fn is_known(decided: Option<&[u8]>, need: Need) -> bool
    ensures { result ≡ Faults.is_known (option_copied decided.entry) need }
{
    match need {
        Need::Required => true,
        Need::Optional => true,
        Need::For(word) => match decided {
            None => true,
            Some(value) => value == word.spelled(),
        },
    }
}

fn is_wanted(decided: Option<&[u8]>, need: Need) -> bool
    ensures { result ≡ Faults.is_wanted (option_copied decided.entry) need }
{
    match need {
        Need::Required => true,
        Need::Optional => false,
        Need::For(word) => match decided {
            None => false,
            Some(value) => value == word.spelled(),
        },
    }
}

fn is_judged(decided: Option<&[u8]>, need: Need) -> bool
    ensures { result ≡ Faults.is_judged (option_copied decided.entry) need }
{
    match need {
        Need::Required => true,
        Need::Optional => true,
        Need::For(word) => match decided {
            None => false,
            Some(value) => value == word.spelled(),
        },
    }
}

fn has_rule(decided: Option<&[u8]>, rules: &[Rule], name: &[u8]) -> bool
    ensures { result ≡ Faults.has_rule (option_copied decided.entry) rules.now name.now }
{
    for rule in rules {
        if is_known(decided, rule.need) && name == rule.word.spelled() {
            return true;
        }
    }
    false
}

/// Whether an attribute is unknown, or is there twice.
pub fn has_stray(decided: Option<&[u8]>, rules: &[Rule], attributes: &[Attribute]) -> bool
    ensures { result ≡ Faults.has_stray (option_copied decided.entry) rules.now [] attributes.now }
{
    for (i, attribute) in attributes.iter().enumerate() {
        let name = attribute.name.as_slice();
        if !has_rule(decided, rules, name) || has_attribute(&attributes[..i], name) {
            return true;
        }
    }
    false
}

/// Whether a wanted attribute is missing.
pub fn lacks(decided: Option<&[u8]>, attributes: &[Attribute], rules: &[Rule]) -> bool
    ensures { result ≡ Faults.lacks (option_copied decided.entry) attributes.now rules.now }
{
    for rule in rules {
        if is_wanted(decided, rule.need) && !has_attribute(attributes, rule.word.spelled()) {
            return true;
        }
    }
    false
}

/// Whether a value of an attribute hasn't the form of one of its rules, of those whose values are expressions or of the others.
fn breaks(
    alloc: Global,
    parsed: bool,
    decided: Option<&[u8]>,
    rules: &[Rule],
    attribute: &Attribute,
) -> Result<bool, NoMemory>
    ensures { IfOk result (λ r. r ≡ Faults.breaks parsed (option_copied decided.entry) rules.now attribute.now) }
{
    for rule in rules {
        if is_parsed(rule.form) == parsed
            && is_judged(decided, rule.need)
            && attribute.name.as_slice() == rule.word.spelled()
            && !has_form(alloc, rule.form, attribute.value.as_slice())?
        {
            return Ok(true);
        }
    }
    Ok(false)
}

/// Whether a value hasn't its form.
pub fn has_malformed(
    alloc: Global,
    parsed: bool,
    decided: Option<&[u8]>,
    rules: &[Rule],
    attributes: &[Attribute],
) -> Result<bool, NoMemory>
    ensures { IfOk result (λ r. r
        ≡ Faults.has_malformed parsed (option_copied decided.entry) rules.now attributes.now) }
{
    for attribute in attributes {
        if breaks(alloc, parsed, decided, rules, attribute)? {
            return Ok(true);
        }
    }
    Ok(false)
}
