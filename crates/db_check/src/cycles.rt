//! The named blocks of a protocol by their numbers, and those that include themselves.

ghost use Rattle.std.specs.Prelude.{◌≡◌, ◌++◌, OnOk, IfOk};
ghost use Rattle.db_cause.specs.declared.cause.Cause.TheVariants as cause;
ghost use Rattle.db_model.specs.BlockFaults.{includes_of, includes_in, protocol_45};
ghost use Rattle.db_model.specs.LeastFault.{earlier};
ghost use Rattle.db_model.specs.Lines.{at_line};
ghost use Rattle.db_model.specs.NameFaults.{block_names};
ghost use Rattle.db_check.specs.First.{first};
ghost use Rattle.db_check.specs.Graph.{numbers, includes_of_cases, includes_of_other, graph_of, leads_here, cycles_from, comes_before};
ghost use Rattle.db_check.specs.Home.{IsHome};
ghost use Rattle.db_check.specs.Order.{IsOrdered};

use crate::first::at_line;
use crate::home::Home;
use crate::order::{Ordered, turns};
use crate::parts;
use crate::search::Graph;
use db_cause::Cause;
use db_laws::cycles_found;
use db_model::{Branch, Case, Element, Fault, Name, NamedBlock, NoMemory, Sequence};
use std::alloc::Global;

/// Puts the numbers of the included blocks behind those that are there. The same for all functions below.
#[cycle(includes)]
fn add_list(
    elements: &[Element],
    home: &Home,
    included: &mut Sequence<usize>,
) -> Result<(), NoMemory>
    requires { IsHome home.now }
    ensures { OnOk result (included.new
        ≡ included.old ++ numbers (block_names home.now.protocol.now) (includes_in elements.now)) }
{
    for element in elements {
        add_element(element, home, included)?;
    }
    Ok(())
}

#[cycle(includes)]
fn add_element(
    element: &Element,
    home: &Home,
    included: &mut Sequence<usize>,
) -> Result<(), NoMemory>
    requires { IsHome home.now }
    ensures { OnOk result (included.new
        ≡ included.old ++ numbers (block_names home.now.protocol.now) (includes_of element.now)) }
{
    match element {
        Element::Block { body, .. } => add_list(body.as_slice(), home, included),
        Element::IncludeBlock { name, .. } => included.push(home.block_at(name.as_slice())),
        Element::Loop { body, .. } => add_list(body.as_slice(), home, included),
        Element::Switch {
            cases,
            otherwise,
            ..
        } => {
            add_cases(cases.as_slice(), home, included)?;
            add_branch(otherwise, home, included)
        }
        Element::If {
            if_true,
            if_false,
            ..
        } => {
            add_list(if_true.as_slice(), home, included)?;
            add_branch(if_false, home, included)
        }
        _ => Ok(()),
    }
}

#[cycle(includes)]
fn add_cases(cases: &[Case], home: &Home, included: &mut Sequence<usize>) -> Result<(), NoMemory>
    requires { IsHome home.now }
    ensures { OnOk result (included.new
        ≡ included.old ++ numbers (block_names home.now.protocol.now) (includes_of_cases cases.now)) }
{
    for case in cases {
        add_list(case.body.as_slice(), home, included)?;
    }
    Ok(())
}

#[cycle(includes)]
fn add_branch(
    branch: &Option<Branch>,
    home: &Home,
    included: &mut Sequence<usize>,
) -> Result<(), NoMemory>
    requires { IsHome home.now }
    ensures { OnOk result (included.new
        ≡ included.old ++ numbers (block_names home.now.protocol.now) (includes_of_other branch.now)) }
{
    match branch {
        Some(branch) => add_list(branch.body.as_slice(), home, included),
        None => Ok(()),
    }
}

fn included_in(alloc: Global, block: &NamedBlock, home: &Home) -> Result<Sequence<usize>, NoMemory>
    requires { IsHome home.now }
    ensures { IfOk result (λ included. included
        ≡ numbers (block_names home.now.protocol.now) (includes_in block.now.body)) }
{
    let mut included = Sequence::new(alloc);
    add_list(block.body.as_slice(), home, &mut included)?;
    Ok(included)
}

fn graph(alloc: Global, home: &Home) -> Result<Graph, NoMemory>
    requires { IsHome home.now }
    ensures { IfOk result (λ graph. graph ≡ graph_of home.now.protocol.now) }
{
    let mut graph = Sequence::new(alloc);
    for block in parts::named_blocks(home.protocol) {
        graph.push(included_in(alloc, block, home)?)?;
    }
    Ok(graph)
}

/// Whether the block of this number is the first of its name and includes itself.
fn leads_here(
    alloc: Global,
    ordered: &Ordered,
    number: usize,
    name: &Name,
    home: &Home,
) -> Result<bool, NoMemory>
    requires home { IsHome home.now }
    requires order { IsOrdered ordered.now }
    ensures { IfOk result (λ r. r
        ≡ leads_here ordered.now.graph.now (block_names home.now.protocol.now) number name.now) }
{
    if home.block_at(name.as_slice()) < number {
        return Ok(false);
    }
    ordered.leads_back(alloc, number)
}

/// Whether what was found comes before a fault of this kind at a line.
fn comes_before(found: Option<Fault>, line: u32) -> bool
    ensures { result ≡ comes_before found line }
{
    let code = Cause::IncludesItself.code();
    match found {
        None => false,
        Some(fault) => fault.line < line || fault.line == line && fault.code <= code,
    }
}

/// What was found, or the fault of a block, whichever comes first. A block whose fault wouldn't isn't searched.
#[tactic(auto, using(crate::proofs::Including::found_stays))]
fn with_block(
    alloc: Global,
    ordered: &Ordered,
    number: usize,
    block: &NamedBlock,
    home: &Home,
    found: Option<Fault>,
) -> Result<Option<Fault>, NoMemory>
    requires home { IsHome home.now }
    requires order { IsOrdered ordered.now }
    ensures { IfOk result (λ f. f ≡ earlier found (first cause.IncludesItself (at_line block.now.line
        (leads_here ordered.now.graph.now (block_names home.now.protocol.now) number block.now.name)))) }
{
    if comes_before(found, block.line) {
        return Ok(found);
    }
    let wrong = leads_here(alloc, ordered, number, &block.name, home)?;
    Ok(Fault::earlier(found, at_line(block.line, Cause::IncludesItself, wrong)))
}

fn in_graph(
    alloc: Global,
    ordered: &Ordered,
    blocks: &[NamedBlock],
    home: &Home,
) -> Result<Option<Fault>, NoMemory>
    requires home { IsHome home.now }
    requires order { IsOrdered ordered.now }
    ensures { IfOk result (λ f. f ≡ first cause.IncludesItself
        (cycles_from ordered.now.graph.now (block_names home.now.protocol.now) 0 blocks.now)) }
{
    let mut found = None;
    for (number, block) in blocks.iter().enumerate() {
        found = with_block(alloc, ordered, number, block, home, found)?;
    }
    Ok(found)
}

/// The least fault of a named block that includes itself, at once or through others.
pub fn cycles(alloc: Global, home: &Home) -> Result<Option<Fault>, NoMemory>
    requires { IsHome home.now }
    ensures { IfOk result (λ f. f ≡ first cause.IncludesItself (protocol_45 home.now.protocol.now)) }
{
    cycles_found();
    let graph = graph(alloc, home)?;
    let turns = turns(alloc, &graph)?;
    let ordered = Ordered {
        graph: &graph,
        turns: turns.as_slice(),
    };
    in_graph(alloc, &ordered, parts::named_blocks(home.protocol), home)
}
