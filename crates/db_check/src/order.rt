//! A topological order of a graph, as far as there is one: each number that has a turn comes behind all that lead to
//! it, so it doesn't lead back to itself and needn't be searched.

ghost use Rattle.std.specs.Prelude.{◌≡◌, IfOk, length};
ghost use Rattle.db_check.specs.Graph;
ghost use Rattle.db_check.specs.Order;

use crate::search::{self, Graph};
use crate::turns::find;
use db_model::{NoMemory, Sequence};
use std::alloc::Global;

/// A graph with the turns of its numbers: 0 for one that has none, and else the greater the earlier.
#[derive(Clone, Copy)]
pub struct Ordered<'a> {
    pub graph: &'a Graph,
    pub turns: &'a [usize],
}

impl Ordered<'_> {
    /// Whether a number leads back to itself. One that has a turn isn't searched.
    #[tactic(auto, using(crate::proofs::Ordered::not_back))]
    pub fn leads_back(&self, alloc: Global, number: usize) -> Result<bool, NoMemory>
        requires { Order.IsOrdered self.now }
        ensures { IfOk result (λ r. r ≡ Graph.leads_back self.now.graph.now (length self.now.graph.now) number) }
    {
        if 0 < turn_of(self.turns, number) {
            return Ok(false);
        }
        search::leads_back(alloc, self.graph, number)
    }
}

fn turn_of(turns: &[usize], number: usize) -> usize
    ensures { result ≡ Order.turn_of turns.now number }
{
    match turns.get(number) {
        None => 0,
        Some(turn) => *turn,
    }
}

/// Whether each of these comes behind one with this turn, or has no turn.
fn are_later(turns: &[usize], turn: usize, targets: &[usize]) -> bool
    ensures { result ≡ Order.are_later turns.now turn targets.now }
{
    for target in targets {
        let is_later = turn_of(turns, *target) < turn.max(1);
        if !is_later {
            return false;
        }
    }
    true
}

/// Whether each number that has a turn comes behind all that lead to it.
fn is_order(graph: &Graph, turns: &[usize]) -> bool
    ensures { result ≡ Order.is_order turns.now 0 graph.now }
{
    for (number, targets) in graph.as_slice().iter().enumerate() {
        if !are_later(turns, turn_of(turns, number), targets.as_slice()) {
            return false;
        }
    }
    true
}

/// Turns of the numbers of a graph. They are tested here, so nothing rests on how they were found.
#[tactic(auto, using(crate::proofs::Ordered::ordered, crate::proofs::Ordered::no_turns))]
pub fn turns(alloc: Global, graph: &Graph) -> Result<Sequence<usize>, NoMemory>
    ensures { IfOk result (λ turns. Order.IsOrder graph.now turns) }
{
    let turns = find(alloc, graph)?;
    if is_order(graph, turns.as_slice()) {
        Ok(turns)
    } else {
        Ok(Sequence::new(alloc))
    }
}
