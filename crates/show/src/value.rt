ghost use Rattle.std.specs.Prelude.{◌≡◌, ◌++◌, ◌∷◌, [], ◌<◌, ◌≤◌, Some, length, map, take, IfOk, IsTrue, OnOk};
ghost use Rattle.std.specs.List.{join_by};
ghost use Rattle.std.specs.Option.{option_copied};
ghost use Rattle.db_model.specs.Numbers;
ghost use Rattle.hex.specs.Hex.{encode_lower};
ghost use Rattle.show.specs.declared.markup.TextForm.{TextForm};
ghost use Rattle.show.specs.Markup.{escaped, written};
ghost use Rattle.show.specs.Shown;
ghost use Rattle.show.specs.Shown.{IsShowable, cut, group_shown, shown};

use crate::markup::{TextForm, is_sign, push_byte, push_written};
use crate::text::{push, push_hex, push_hex_twice, push_number};
use db_model::{NoMemory, ShowTemplate, ShowType};
use std::alloc::Global;

/// The text of bytes by a show template, or in plain hex without one.
pub fn show_value(
    alloc: Global,
    template: Option<&ShowTemplate>,
    bytes: &[u8],
) -> Result<Vec<u8>, NoMemory>
    requires { IsShowable (option_copied template) }
    ensures { IfOk result (λ text. text.items ≡ shown (option_copied template.entry) bytes.now) }
{
    let mut text = Vec::new(alloc);
    push_shown(&mut text, TextForm::Plain, template, bytes)?;
    Ok(text)
}

/// Adds the text of bytes by a show template, or in plain hex without one.
pub fn push_shown(
    text: &mut Vec<u8>,
    form: TextForm,
    template: Option<&ShowTemplate>,
    bytes: &[u8],
) -> Result<(), NoMemory>
    requires { IsShowable (option_copied template) }
    ensures { OnOk result (text.new.items ≡
        text.old.items ++ written form (shown (option_copied template.entry) bytes.now)) }
{
    match template {
        Some(template) => push_by(text, form, template, bytes),
        None => push_hex(text, bytes),
    }
}

fn push_by(
    text: &mut Vec<u8>,
    form: TextForm,
    template: &ShowTemplate,
    bytes: &[u8],
) -> Result<(), NoMemory>
    requires { IsShowable (Some template.now) }
    ensures { OnOk result (text.new.items ≡
        text.old.items ++ written form (shown (Some template.now) bytes.now)) }
{
    if bytes.is_empty() {
        return Ok(());
    }
    let size = group_size(template.group as usize, bytes.len());
    push_groups(text, form, template, size, bytes)
}

fn group_size(size: usize, all: usize) -> usize
    ensures { result ≡ Shown.group_size size all }
{
    if size == 0 { all } else { size }
}

/// Adds groups of this size, where there is at least one.
fn push_groups(
    text: &mut Vec<u8>,
    form: TextForm,
    template: &ShowTemplate,
    size: usize,
    bytes: &[u8],
) -> Result<(), NoMemory>
    requires some { 0 < length bytes.now }
    requires size { 0 < size }
    requires decimal { template.now.show_type ≡ ShowType.Dec → size ≤ 4 }
    ensures { OnOk result (text.new.items ≡
        text.old.items ++ written form
        (join_by (group_shown template.now.show_type) template.now.separator (cut (length bytes.now) size bytes.now))) }
{
    let mut rest = bytes;
    while rest.len() > size {
        let (group, behind) = rest.split_at(size);
        push_group(text, form, template.show_type, group)?;
        push_written(text, form, template.separator.as_slice())?;
        rest = behind;
    }
    push_group(text, form, template.show_type, rest)
}

fn push_group(
    text: &mut Vec<u8>,
    form: TextForm,
    show_type: ShowType,
    group: &[u8],
) -> Result<(), NoMemory>
    requires { show_type ≡ ShowType.Dec → length group.now ≤ 4 }
    ensures { OnOk result (text.new.items ≡
        text.old.items ++ written form (group_shown show_type group.now)) }
{
    match show_type {
        ShowType::Hex => push_hex(text, group),
        ShowType::Dec => push_number(text, u64::from(big_endian(group))),
        ShowType::Ascii => push_characters(text, form, group),
    }
}

/// The number that bytes are together, the highest first.
fn big_endian(bytes: &[u8]) -> u32
    requires { length bytes.now ≤ 4 }
    ensures { result ≡ Numbers.big_endian bytes.now }
{
    let mut number = 0;
    for byte in bytes {
        number = number * 256 + u32::from(*byte);
    }
    number
}

#[tactic(auto, unfolding(crate::specs::Shown::character))]
fn character(byte: u8) -> u8
    ensures { result ≡ Shown.character byte }
{
    if byte >= 0x20 && byte <= 0x7E {
        byte
    } else {
        b'.'
    }
}

/// Whether a byte is written as it is: shown as itself, and no sign of the markup.
#[tactic(auto, using(crate::proofs::Runs::itself))]
fn is_itself(byte: u8) -> bool
    ensures { IsTrue result → (form : TextForm) → written form (Shown.character byte ∷ []) ≡ byte ∷ [] }
{
    character(byte) == byte && !is_sign(byte)
}

/// How many bytes in front are written as they are.
fn run_of(bytes: &[u8]) -> usize
    ensures within { result ≤ length bytes.now }
    ensures same { (form : TextForm) →
        written form (map Shown.character (take result bytes.now)) ≡ take result bytes.now }
{
    for i in 0..bytes.len() {
        if !is_itself(bytes[i]) {
            return i;
        }
    }
    bytes.len()
}

fn push_each_character(text: &mut Vec<u8>, form: TextForm, bytes: &[u8]) -> Result<(), NoMemory>
    ensures { OnOk result (text.new.items ≡
        text.old.items ++ written form (map Shown.character bytes.now)) }
{
    for byte in bytes {
        push_byte(text, form, character(*byte))?;
    }
    Ok(())
}

/// Adds a character for each byte: the byte itself from 0x20 to 0x7E, else a point. What is written as it is is added
/// by runs.
pub fn push_characters(text: &mut Vec<u8>, form: TextForm, bytes: &[u8]) -> Result<(), NoMemory>
    ensures { OnOk result (text.new.items ≡
        text.old.items ++ written form (map Shown.character bytes.now)) }
{
    let mut rest = bytes;
    while !rest.is_empty() {
        let (run, behind) = rest.split_at(run_of(rest));
        let (next, left) = behind.split_at(behind.len().min(1));
        push(text, run)?;
        push_each_character(text, form, next)?;
        rest = left;
    }
    Ok(())
}

/// Adds bytes in hex, a text, and the bytes as they are shown as a value of the markup. In plain hex that is the same
/// text once more.
pub fn push_hex_and_shown(
    text: &mut Vec<u8>,
    between: &[u8],
    template: Option<&ShowTemplate>,
    bytes: &[u8],
) -> Result<(), NoMemory>
    requires { IsShowable (option_copied template) }
    ensures { OnOk result (text.new.items ≡ text.old.items
        ++ (encode_lower bytes.now ++ (between.now ++ escaped (shown (option_copied template.entry) bytes.now)))) }
{
    match template {
        Some(template) => {
            push_hex(text, bytes)?;
            push(text, between)?;
            push_by(text, TextForm::Markup, template, bytes)
        }
        None => push_hex_twice(text, bytes, between),
    }
}
