//! What the values of attributes mean.

ghost use Rattle.std.specs.Prelude.{◌≡◌, IfOk, option_map};
ghost use Rattle.std.specs.Option.{option_copied};
ghost use Rattle.db_load.specs.Forms;
ghost use Rattle.db_load.specs.Values;
ghost use Rattle.db_load.specs.Whole;

use crate::Word;
use crate::attribute::value_of;
use crate::expression::{literal_of, parsed, quoted_of};
use crate::form::{is_section, is_text};
use crate::mask::mask_of;
use db_model::{
    Bytes, Expr, HeaderPart, Literal, LoopControl, LoopKind, MOST_SEPARATOR, Name, NoMemory,
    ShowType, Ty, Validity, is_name,
};
use db_text::Node;
use expr_text::number_of;
use std::alloc::Global;

/// The value of an attribute of an element.
pub fn value_at(node: &Node, word: Word) -> Option<&[u8]>
    ensures { option_map (λ v. v.now) result ≡ Whole.of node.now word }
{
    value_of(node.attributes.as_slice(), word)
}

fn no_name(alloc: Global) -> Result<Name, NoMemory>
    ensures { IfOk result (λ n. n ≡ Values.no_name) }
{
    Name::copy_of(alloc, b"x".as_slice())
}

fn name_in(alloc: Global, value: &[u8]) -> Result<Name, NoMemory>
    ensures { IfOk result (λ n. n ≡ Values.name_in value.now) }
{
    if is_name(value) {
        Name::copy_of(alloc, value)
    } else {
        no_name(alloc)
    }
}

pub fn name_by(alloc: Global, node: &Node, word: Word) -> Result<Name, NoMemory>
    ensures { IfOk result (λ n. n ≡ Values.name_by (Whole.of node.now word)) }
{
    match value_at(node, word) {
        Some(name) => name_in(alloc, name),
        None => no_name(alloc),
    }
}

pub fn optional_name_by(alloc: Global, node: &Node, word: Word) -> Result<Option<Name>, NoMemory>
    ensures { IfOk result (λ n. n ≡ Values.optional_name_by (Whole.of node.now word)) }
{
    match value_at(node, word) {
        Some(name) if is_name(name) => Ok(Some(Name::copy_of(alloc, name)?)),
        _ => Ok(None),
    }
}

/// A variable's name, which is written behind a `$`.
pub fn variable_name_by(alloc: Global, node: &Node, word: Word) -> Result<Name, NoMemory>
    ensures { IfOk result (λ n. n ≡ Values.variable_name_by (Whole.of node.now word)) }
{
    match value_at(node, word) {
        Some([b'$', name @ ..]) => name_in(alloc, name),
        _ => no_name(alloc),
    }
}

/// The name of a section of a summary, which may be any text that isn't empty.
pub fn section_by(alloc: Global, node: &Node, word: Word) -> Result<Name, NoMemory>
    ensures { IfOk result (λ n. n ≡ Values.section_by (Whole.of node.now word)) }
{
    match value_at(node, word) {
        Some(name) if is_section(name) => Name::copy_of(alloc, name),
        _ => no_name(alloc),
    }
}

pub fn text_by(alloc: Global, node: &Node, word: Word) -> Result<Option<Bytes>, NoMemory>
    ensures { IfOk result (λ t. t ≡ Values.text_by (Whole.of node.now word)) }
{
    match value_at(node, word) {
        Some(text) if is_text(text) => Ok(Some(Bytes::copy_of(alloc, text)?)),
        _ => Ok(None),
    }
}

pub fn filled_by(alloc: Global, node: &Node, word: Word) -> Result<Bytes, NoMemory>
    ensures { IfOk result (λ t. t ≡ Values.filled_by (Whole.of node.now word)) }
{
    match value_at(node, word) {
        Some(text) if is_text(text) => Bytes::copy_of(alloc, text),
        _ => Bytes::copy_of(alloc, &[]),
    }
}

pub fn separator_by(alloc: Global, node: &Node, word: Word) -> Result<Bytes, NoMemory>
    ensures { IfOk result (λ t. t ≡ Values.separator_by (Whole.of node.now word)) }
{
    match value_at(node, word) {
        Some(text) if is_text(text) && text.len() <= MOST_SEPARATOR as usize => {
            Bytes::copy_of(alloc, text)
        }
        _ => Bytes::copy_of(alloc, &[]),
    }
}

pub fn optional_number_by(node: &Node, word: Word) -> Option<u32>
    ensures { result ≡ Values.optional_number_by (Whole.of node.now word) }
{
    match value_at(node, word) {
        Some(text) => number_of(text),
        None => None,
    }
}

pub fn number_by(node: &Node, word: Word) -> u32
    ensures { result ≡ Values.number_by (Whole.of node.now word) }
{
    optional_number_by(node, word).unwrap_or(0)
}

pub fn mask_by(alloc: Global, node: &Node, word: Word) -> Result<Option<Bytes>, NoMemory>
    ensures { IfOk result (λ m. m ≡ Values.mask_by (Whole.of node.now word)) }
{
    match value_at(node, word) {
        Some(text) => mask_of(alloc, text),
        None => Ok(None),
    }
}

pub fn expr_by(alloc: Global, node: &Node, word: Word) -> Result<Expr, NoMemory>
    ensures { IfOk result (λ e. e ≡ Values.expr_by (Whole.of node.now word)) }
{
    match value_at(node, word) {
        Some(text) => Ok(parsed(alloc, text)?.unwrap_or(Expr::Number(0))),
        None => Ok(Expr::Number(0)),
    }
}

pub fn literal_by(alloc: Global, node: &Node, word: Word) -> Result<Literal, NoMemory>
    ensures { IfOk result (λ l. l ≡ Values.literal_by (Whole.of node.now word)) }
{
    match value_at(node, word) {
        Some(text) => Ok(literal_of(alloc, text)?.unwrap_or(Literal::Number(0))),
        None => Ok(Literal::Number(0)),
    }
}

/// A token, which is written as a text in quotes.
pub fn token_by(alloc: Global, node: &Node, word: Word) -> Result<Bytes, NoMemory>
    ensures { IfOk result (λ t. t ≡ Values.token_by (Whole.of node.now word)) }
{
    match value_at(node, word) {
        Some(text) => match quoted_of(alloc, text)? {
            Some(token) => Ok(token),
            None => Bytes::copy_of(alloc, &[]),
        },
        None => Bytes::copy_of(alloc, &[]),
    }
}

pub fn is_word(value: Option<&[u8]>, word: Word) -> bool
    ensures { result ≡ Values.is_word (option_copied value.entry) word }
{
    match value {
        Some(text) => text == word.spelled(),
        None => false,
    }
}

pub fn ty_by(node: &Node, word: Word) -> Ty
    ensures { result ≡ Values.ty_by (Whole.of node.now word) }
{
    let value = value_at(node, word);
    if is_word(value, Word::Buf) {
        Ty::Buf
    } else if is_word(value, Word::Proto) {
        Ty::Proto
    } else {
        Ty::Num
    }
}

pub fn show_type_by(node: &Node, word: Word) -> ShowType
    ensures { result ≡ Values.show_type_by (Whole.of node.now word) }
{
    let value = value_at(node, word);
    if is_word(value, Word::Dec) {
        ShowType::Dec
    } else if is_word(value, Word::Ascii) {
        ShowType::Ascii
    } else {
        ShowType::Hex
    }
}

pub fn header_part_by(node: &Node, word: Word) -> HeaderPart
    ensures { result ≡ Values.header_part_by (Whole.of node.now word) }
{
    let value = value_at(node, word);
    if is_word(value, Word::Timestamp) {
        HeaderPart::Timestamp
    } else if is_word(value, Word::Len) {
        HeaderPart::Len
    } else {
        HeaderPart::Num
    }
}

pub fn loop_kind_by(node: &Node, word: Word) -> LoopKind
    ensures { result ≡ Values.loop_kind_by (Whole.of node.now word) }
{
    let value = value_at(node, word);
    if is_word(value, Word::Count) {
        LoopKind::Count
    } else if is_word(value, Word::While) {
        LoopKind::While
    } else {
        LoopKind::Size
    }
}

pub fn loop_control_by(node: &Node, word: Word) -> LoopControl
    ensures { result ≡ Values.loop_control_by (Whole.of node.now word) }
{
    let value = value_at(node, word);
    if is_word(value, Word::Continue) {
        LoopControl::Continue
    } else {
        LoopControl::Break
    }
}

pub fn validity_by(node: &Node, word: Word) -> Validity
    ensures { result ≡ Values.validity_by (Whole.of node.now word) }
{
    let value = value_at(node, word);
    if is_word(value, Word::KeepMaxTime) {
        Validity::MaxTime
    } else if is_word(value, Word::UpdateOnHit) {
        Validity::UpdateOnHit
    } else if is_word(value, Word::AddOnHit) {
        Validity::AddOnHit
    } else {
        Validity::Forever
    }
}
