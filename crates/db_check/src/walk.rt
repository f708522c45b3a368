//! The least fault of a kind in the elements of a protocol.

ghost use Rattle.std.specs.Prelude.{◌≡◌};
ghost use Rattle.db_model.specs.Lines.{lines_of, lines_in, over};
ghost use Rattle.db_check.specs.Around.{IsAround, own_in};
ghost use Rattle.db_check.specs.First.{first};
ghost use Rattle.db_check.specs.Layer.{inside_at, lines_of_cases, lines_of_other, lines_of_blocks};
ghost use Rattle.db_check.specs.Own.{cause_of};

use crate::around::Around;
use crate::kind::Kind;
use crate::own::own;
use crate::parts;
use db_model::{Branch, Case, Element, Fault, NamedBlock};

/// An element and all that stands in it.
#[cycle(walk)]
fn of_element(kind: Kind, element: &Element, around: &Around) -> Option<Fault>
    requires { IsAround around.now }
    ensures { result ≡ first (cause_of kind) (lines_of (own_in around.now kind) element.now) }
{
    Fault::earlier(own(kind, element, around), inside(kind, element, around))
}

#[cycle(walk)]
fn inside(kind: Kind, element: &Element, around: &Around) -> Option<Fault>
    requires { IsAround around.now }
    ensures { result ≡ first (cause_of kind) (inside_at (own_in around.now kind) element.now) }
{
    match element {
        Element::Block { body, .. } => of_list(kind, body.as_slice(), around),
        Element::Loop { body, .. } => of_list(kind, body.as_slice(), around),
        Element::Switch {
            cases,
            otherwise,
            ..
        } => Fault::earlier(
            of_cases(kind, cases.as_slice(), around),
            of_branch(kind, otherwise, around),
        ),
        Element::If {
            if_true,
            if_false,
            ..
        } => Fault::earlier(
            of_list(kind, if_true.as_slice(), around),
            of_branch(kind, if_false, around),
        ),
        _ => None,
    }
}

#[cycle(walk)]
fn of_list(kind: Kind, elements: &[Element], around: &Around) -> Option<Fault>
    requires { IsAround around.now }
    ensures { result ≡ first (cause_of kind) (over (lines_of (own_in around.now kind)) elements.now) }
{
    let mut found = None;
    for element in elements {
        found = Fault::earlier(found, of_element(kind, element, around));
    }
    found
}

#[cycle(walk)]
fn of_cases(kind: Kind, cases: &[Case], around: &Around) -> Option<Fault>
    requires { IsAround around.now }
    ensures { result ≡ first (cause_of kind) (lines_of_cases (own_in around.now kind) cases.now) }
{
    let mut found = None;
    for case in cases {
        found = Fault::earlier(found, of_list(kind, case.body.as_slice(), around));
    }
    found
}

#[cycle(walk)]
fn of_branch(kind: Kind, branch: &Option<Branch>, around: &Around) -> Option<Fault>
    requires { IsAround around.now }
    ensures { result ≡ first (cause_of kind) (lines_of_other (own_in around.now kind) branch.now) }
{
    match branch {
        Some(branch) => of_list(kind, branch.body.as_slice(), around),
        None => None,
    }
}

fn of_blocks(kind: Kind, blocks: &[NamedBlock], around: &Around) -> Option<Fault>
    requires { IsAround around.now }
    ensures { result ≡ first (cause_of kind) (lines_of_blocks (own_in around.now kind) blocks.now) }
{
    let mut found = None;
    for block in blocks {
        found = Fault::earlier(found, of_list(kind, block.body.as_slice(), around));
    }
    found
}

/// The least fault of this kind in the elements of the protocol.
#[tactic(auto, using(crate::proofs::Layers::parts_first))]
pub fn in_protocol(kind: Kind, around: &Around) -> Option<Fault>
    requires { IsAround around.now }
    ensures { result ≡ first (cause_of kind) (lines_in (own_in around.now kind) around.now.protocol.now) }
{
    let before = of_list(kind, parts::before(around.protocol), around);
    let fields = of_list(kind, parts::fields(around.protocol), around);
    let after = of_list(kind, parts::after(around.protocol), around);
    let next = of_list(kind, parts::encapsulation(around.protocol), around);
    let blocks = of_blocks(kind, parts::named_blocks(around.protocol), around);
    let run = Fault::earlier(before, Fault::earlier(fields, Fault::earlier(after, next)));
    Fault::earlier(run, blocks)
}
