//! Bit fields that aren't followed by their like.

ghost use Rattle.std.specs.Prelude.{◌≡◌, map};
ghost use Rattle.db_cause.specs.declared.cause.Cause.TheVariants as cause;
ghost use Rattle.db_model.specs.Lines.{over};
ghost use Rattle.db_model.specs.NumberFaults;
ghost use Rattle.db_check.specs.First.{first};
ghost use Rattle.db_check.specs.Rows.{in_row_of, rows_of_cases, rows_of_other, rows_of_blocks, rows_in};

use crate::first::at_line;
use crate::parts;
use db_cause::Cause;
use db_model::{Branch, Case, Element, Fault, FieldForm, NamedBlock, Protocol};

/// The size and the mask of a bit field.
fn bit_by(form: &FieldForm) -> Option<(u32, u32)>
    ensures { result ≡ NumberFaults.bit_by form.now }
{
    match form {
        FieldForm::Bit { size, mask } => Some((*size, *mask)),
        _ => None,
    }
}

fn bit_of(element: &Element) -> Option<(u32, u32)>
    ensures { result ≡ (in_row_of element.now).bit }
{
    match element {
        Element::Field { form, .. } => bit_by(form),
        _ => None,
    }
}

fn line_of(element: &Element) -> u32
    ensures { result ≡ (in_row_of element.now).line }
{
    match element {
        Element::Field { line, .. }
        | Element::Block { line, .. }
        | Element::IncludeBlock { line, .. }
        | Element::Loop { line, .. }
        | Element::LoopCtrl { line, .. }
        | Element::Switch { line, .. }
        | Element::If { line, .. }
        | Element::Assign { line, .. }
        | Element::Update { line, .. }
        | Element::NextProto { line, .. } => *line,
    }
}

fn is_of_size(size: u32, bit: Option<(u32, u32)>) -> bool
    ensures { result ≡ NumberFaults.is_of_size size bit }
{
    match bit {
        None => false,
        Some(bit) => bit.0 == size,
    }
}

/// Whether a bit field of this size comes first.
fn is_bit_of(size: u32, elements: &[Element]) -> bool
    ensures { result ≡ NumberFaults.is_bit_of size (map in_row_of elements.now) }
{
    match elements {
        [] => false,
        [first, ..] => is_of_size(size, bit_of(first)),
    }
}

/// Whether a bit field goes on, with no bit field of its size behind it.
fn is_unfollowed(bit: Option<(u32, u32)>, behind: &[Element]) -> bool
    ensures { result ≡ NumberFaults.is_unfollowed bit (map in_row_of behind.now) }
{
    match bit {
        None => false,
        Some(bit) => bit.1 % 2 == 0 && !is_bit_of(bit.0, behind),
    }
}

/// The least fault of a list, and of those in its elements.
#[cycle(rows)]
fn of_list(elements: &[Element]) -> Option<Fault>
    ensures { result ≡ first cause.UnfollowedBits (NumberFaults.list_44 elements.now) }
{
    let mut found = None;
    for (i, element) in elements.iter().enumerate() {
        let wrong = is_unfollowed(bit_of(element), &elements[i + 1..]);
        let own = at_line(line_of(element), Cause::UnfollowedBits, wrong);
        found = Fault::earlier(found, Fault::earlier(own, within(element)));
    }
    found
}

#[cycle(rows)]
fn within(element: &Element) -> Option<Fault>
    ensures { result ≡ first cause.UnfollowedBits (in_row_of element.now).within }
{
    match element {
        Element::Block { body, .. } => of_list(body.as_slice()),
        Element::Loop { body, .. } => of_list(body.as_slice()),
        Element::Switch {
            cases,
            otherwise,
            ..
        } => Fault::earlier(of_cases(cases.as_slice()), of_branch(otherwise)),
        Element::If {
            if_true,
            if_false,
            ..
        } => Fault::earlier(of_list(if_true.as_slice()), of_branch(if_false)),
        _ => None,
    }
}

#[cycle(rows)]
fn of_cases(cases: &[Case]) -> Option<Fault>
    ensures { result ≡ first cause.UnfollowedBits (rows_of_cases cases.now) }
{
    let mut found = None;
    for case in cases {
        found = Fault::earlier(found, of_list(case.body.as_slice()));
    }
    found
}

#[cycle(rows)]
fn of_branch(branch: &Option<Branch>) -> Option<Fault>
    ensures { result ≡ first cause.UnfollowedBits (rows_of_other branch.now) }
{
    match branch {
        Some(branch) => of_list(branch.body.as_slice()),
        None => None,
    }
}

fn of_blocks(blocks: &[NamedBlock]) -> Option<Fault>
    ensures { result ≡ first cause.UnfollowedBits (rows_of_blocks blocks.now) }
{
    let mut found = None;
    for block in blocks {
        found = Fault::earlier(found, of_list(block.body.as_slice()));
    }
    found
}

/// The least fault of this kind in the fields of a protocol.
#[tactic(auto, using(crate::proofs::InRows::rows_append))]
fn in_protocol(protocol: &Protocol) -> Option<Fault>
    ensures { result ≡ first cause.UnfollowedBits (rows_in protocol.now) }
{
    Fault::earlier(
        of_list(parts::fields(protocol)),
        of_blocks(parts::named_blocks(protocol)),
    )
}

pub fn in_protocols(protocols: &[Protocol]) -> Option<Fault>
    ensures { result ≡ first cause.UnfollowedBits (over rows_in protocols.now) }
{
    let mut found = None;
    for protocol in protocols {
        found = Fault::earlier(found, in_protocol(protocol));
    }
    found
}
