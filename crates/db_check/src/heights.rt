//! How high blocks and loops stand in one another, included ones counted.

ghost use Rattle.std.specs.Prelude.{◌≡◌, ◌&&◌, max, map, nat_lt, IfOk};
ghost use Rattle.std.specs.List.{list_all};
ghost use Rattle.db_model.specs.Chain.{elements_of};
ghost use Rattle.db_model.specs.Numbering.{blocks_in};
ghost use Rattle.db_model.specs.declared.database.NamedBlock.{NamedBlock};
ghost use Rattle.db_model.specs.BlockFaults.{protocol_within};
ghost use Rattle.db_model.specs.NameFaults.{block_names};
ghost use Rattle.db_check.specs.Heights;
ghost use Rattle.db_check.specs.Heights.{height_at, height_in, height_of, height_of_cases, height_of_other, heights_after, next_heights};
ghost use Rattle.db_check.specs.Home.{IsHome};

use crate::home::Home;
use crate::parts;
use db_model::{Branch, Case, Element, NoMemory, Sequence};
use std::alloc::Global;

/// The least height that is too great, and the greatest that is told apart.
pub const TOO_HIGH: u32 = 65;

/// The height with a block or a loop around it.
fn raised(height: u32) -> u32
    ensures { result ≡ Heights.raised height }
{
    height.saturating_add(1).min(TOO_HIGH)
}

fn taller(a: u32, b: u32) -> u32
    ensures { result ≡ max a b }
{
    a.max(b)
}

/// The height of the block of a name.
fn of_name(name: &[u8], heights: &[u32], home: &Home) -> u32
    requires { IsHome home.now }
    ensures { result ≡ height_at (block_names home.now.protocol.now) heights.now name.now }
{
    match heights.get(home.block_at(name)) {
        Some(height) => *height,
        None => 0,
    }
}

#[cycle(height)]
fn of_element(element: &Element, heights: &[u32], home: &Home) -> u32
    requires { IsHome home.now }
    ensures { result ≡ height_of (height_at (block_names home.now.protocol.now) heights.now) element.now }
{
    match element {
        Element::Block { body, .. } => raised(of_list(body.as_slice(), heights, home)),
        Element::IncludeBlock { name, .. } => of_name(name.as_slice(), heights, home),
        Element::Loop { body, .. } => raised(of_list(body.as_slice(), heights, home)),
        Element::Switch {
            cases,
            otherwise,
            ..
        } => taller(
            of_cases(cases.as_slice(), heights, home),
            of_branch(otherwise, heights, home),
        ),
        Element::If {
            if_true,
            if_false,
            ..
        } => taller(
            of_list(if_true.as_slice(), heights, home),
            of_branch(if_false, heights, home),
        ),
        _ => 0,
    }
}

#[cycle(height)]
fn of_list(elements: &[Element], heights: &[u32], home: &Home) -> u32
    requires { IsHome home.now }
    ensures { result ≡ height_in (height_at (block_names home.now.protocol.now) heights.now) elements.now }
{
    let mut found = 0;
    for element in elements {
        found = taller(found, of_element(element, heights, home));
    }
    found
}

#[cycle(height)]
fn of_cases(cases: &[Case], heights: &[u32], home: &Home) -> u32
    requires { IsHome home.now }
    ensures { result ≡ height_of_cases (height_at (block_names home.now.protocol.now) heights.now) cases.now }
{
    let mut found = 0;
    for case in cases {
        found = taller(found, of_list(case.body.as_slice(), heights, home));
    }
    found
}

#[cycle(height)]
fn of_branch(branch: &Option<Branch>, heights: &[u32], home: &Home) -> u32
    requires { IsHome home.now }
    ensures { result ≡ height_of_other (height_at (block_names home.now.protocol.now) heights.now) branch.now }
{
    match branch {
        Some(branch) => of_list(branch.body.as_slice(), heights, home),
        None => 0,
    }
}

/// No height yet.
fn no_heights(alloc: Global, home: &Home) -> Result<Sequence<u32>, NoMemory>
    ensures { IfOk result (λ heights. heights ≡ map (λ (b : NamedBlock). 0) (blocks_in home.now.protocol.now.format)) }
{
    let count = parts::named_blocks(home.protocol).len();
    Ok(Sequence::from_vec(vec![in alloc; 0u32; count]?))
}

/// One round: the heights of the named blocks by those of the round before.
fn next_heights(alloc: Global, heights: &[u32], home: &Home) -> Result<Sequence<u32>, NoMemory>
    requires { IsHome home.now }
    ensures { IfOk result (λ next. next ≡ next_heights home.now.protocol.now heights.now) }
{
    let mut next = Sequence::new(alloc);
    for block in parts::named_blocks(home.protocol) {
        next.push(raised(of_list(block.body.as_slice(), heights, home)))?;
    }
    Ok(next)
}

/// The heights of the named blocks. Each is right, since it is one that is told apart.
#[tactic(auto, using(crate::proofs::Nesting::after_none, crate::proofs::Nesting::after_next))]
pub fn heights_of(alloc: Global, home: &Home) -> Result<Sequence<u32>, NoMemory>
    requires { IsHome home.now }
    ensures { IfOk result (λ heights. heights ≡ heights_after home.now.protocol.now TOO_HIGH) }
{
    let mut heights = no_heights(alloc, home)?;
    for _round in 0..TOO_HIGH {
        heights = next_heights(alloc, heights.as_slice(), home)?;
    }
    Ok(heights)
}

/// The height of the lists of the protocol, one after another.
fn of_run(heights: &[u32], home: &Home) -> u32
    requires { IsHome home.now }
    ensures { result ≡ height_in (height_at (block_names home.now.protocol.now) heights.now)
        (elements_of home.now.protocol.now) }
{
    let before = of_list(parts::before(home.protocol), heights, home);
    let fields = of_list(parts::fields(home.protocol), heights, home);
    let after = of_list(parts::after(home.protocol), heights, home);
    let next = of_list(parts::encapsulation(home.protocol), heights, home);
    taller(before, taller(fields, taller(after, next)))
}

fn are_low(heights: &[u32]) -> bool
    ensures { result ≡ list_all (λ h. nat_lt h TOO_HIGH) heights.now }
{
    heights.iter().all(|height| *height < TOO_HIGH)
}

fn both(a: bool, b: bool) -> bool
    ensures { result ≡ (a && b) }
{
    a && b
}

/// Whether no block or loop of the protocol stands too deep in others.
pub fn is_within(heights: &[u32], home: &Home) -> bool
    requires home { IsHome home.now }
    requires heights { heights.now ≡ heights_after home.now.protocol.now TOO_HIGH }
    ensures { result ≡ protocol_within home.now.protocol.now }
{
    both(of_run(heights, home) < TOO_HIGH, are_low(heights))
}
