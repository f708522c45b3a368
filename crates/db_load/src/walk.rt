//! The least fault of a tree, found by a walk that builds nothing.

ghost use Rattle.std.specs.Prelude.{◌≡◌, map, IfOk, Some};
ghost use Rattle.db_text.specs.declared.node.Node.{Node, out-Node};
ghost use Rattle.db_model.specs.LeastFault.{least};
ghost use Rattle.db_load.specs.Faults;

use crate::attribute::{decided, has_malformed, has_stray, lacks};
use crate::child::{has_wrong_children, row_of};
use crate::{Child, Kind, ListKind, MOST_LEVELS, Word, children, rules};
use db_cause::Cause;
use db_model::{Fault, NoMemory};
use db_text::Node;
use std::alloc::Global;

fn at_line(line: u32, cause: Cause, stands: bool) -> Option<Fault>
    ensures { result ≡ least (Faults.at_line line cause stands) }
{
    if stands {
        Some(Fault {
            line,
            code: cause.code(),
        })
    } else {
        None
    }
}

fn is_astray(kind: Kind) -> bool
    ensures { result ≡ Faults.is_astray kind }
{
    match kind {
        Kind::LoopCtrl(ListKind::Looped) => false,
        Kind::LoopCtrl(_) => true,
        _ => false,
    }
}

/// The least fault of the attributes of an element.
#[tactic(auto, using(db_model::proofs::LeastFault::least_append), unfolding(crate::specs::Faults::of_attributes))]
fn of_attributes(alloc: Global, kind: Kind, node: &Node) -> Result<Option<Fault>, NoMemory>
    ensures { IfOk result (λ f. f
        ≡ least (Faults.of_attributes kind (out-Node node.now).line (out-Node node.now).attributes)) }
{
    let attributes = node.attributes.as_slice();
    let rules = rules(kind);
    let decided = decided(alloc, kind, attributes)?;
    let malformed = has_malformed(alloc, false, decided, rules, attributes)?;
    let misparsed = has_malformed(alloc, true, decided, rules, attributes)?;
    let values = Fault::earlier(
        at_line(node.line, Cause::MalformedValue, malformed),
        at_line(node.line, Cause::MalformedExpression, misparsed),
    );
    let missing = at_line(
        node.line,
        Cause::MissingAttribute,
        lacks(decided, attributes, rules),
    );
    let stray = at_line(
        node.line,
        Cause::StrayAttribute,
        has_stray(decided, rules, attributes),
    );
    Ok(Fault::earlier(stray, Fault::earlier(missing, values)))
}

/// The least fault of what stands in an element and of where it stands.
#[tactic(auto, using(db_model::proofs::LeastFault::least_append), unfolding(crate::specs::Faults::of_place))]
fn of_place(kind: Kind, left: u32, node: &Node) -> Option<Fault>
    ensures { result ≡ least (Faults.of_place kind left (out-Node node.now).line (Faults.names_in
        (out-Node node.now).children)) }
{
    let line = node.line;
    let inside = has_wrong_children(kind, node.children.as_slice());
    let astray = at_line(line, Cause::StrayLoopControl, is_astray(kind));
    Fault::earlier(
        at_line(line, Cause::WrongChildren, inside),
        Fault::earlier(at_line(line, Cause::ElementTooDeep, left == 0), astray),
    )
}

/// The least fault of an element and of all that stands in it, where so many levels may still stand in it.
#[cycle(walk)]
fn inside(alloc: Global, kind: Kind, left: u32, node: &Node) -> Result<Option<Fault>, NoMemory>
    ensures { IfOk result (λ f. f ≡ least (Faults.faults kind left node.now)) }
{
    let own = Fault::earlier(
        of_attributes(alloc, kind, node)?,
        of_place(kind, left, node),
    );
    let nodes = node.children.as_slice();
    let below = below(alloc, children(kind), left.saturating_sub(1), nodes)?;
    Ok(Fault::earlier(own, below))
}

#[cycle(walk)]
fn below(
    alloc: Global,
    rows: &[Child],
    left: u32,
    nodes: &[Node],
) -> Result<Option<Fault>, NoMemory>
    ensures { IfOk result (λ f. f ≡ least (Faults.below rows.now left (map Faults.part nodes.now))) }
{
    let mut found = None;
    for node in nodes {
        let row = row_of(rows, node.name.as_slice());
        found = Fault::earlier(found, of_child(alloc, row, left, node)?);
    }
    Ok(found)
}

/// The least fault of an element that stands under a row, or the one that it may not stand there.
#[cycle(walk)]
fn of_child(
    alloc: Global,
    row: Option<Child>,
    left: u32,
    node: &Node,
) -> Result<Option<Fault>, NoMemory>
    ensures { IfOk result (λ f. f ≡ least (Faults.of_child row left (Faults.part node.now))) }
{
    match row {
        None => Ok(at_line(node.line, Cause::MisplacedElement, true)),
        Some(row) => inside(alloc, row.kind, left, node),
    }
}

/// The fault of a tree of elements that is answered: that of the least line, and there that of the least code.
#[tactic(auto, using(crate::proofs::Parts::top_is, crate::proofs::Parts::top_is_not))]
pub fn refusal(alloc: Global, node: &Node) -> Result<Option<Fault>, NoMemory>
    ensures { IfOk result (λ f. f ≡ Faults.refusal node.now) }
{
    if node.name.as_slice() == Word::Netpdl.spelled() {
        inside(alloc, Kind::Netpdl, MOST_LEVELS, node)
    } else {
        Ok(at_line(node.line, Cause::MisplacedElement, true))
    }
}
