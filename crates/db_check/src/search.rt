//! Numbers that lead to others, and a search along them.

ghost use Rattle.std.specs.Prelude.{◌≡◌, OnOk, IfOk, length, slice_get};
ghost use Rattle.db_check.specs.Graph;

use db_model::{NoMemory, Sequence};
use std::alloc::Global;

/// For each number those to which it leads. Ones that aren't numbers of the graph lead nowhere.
pub type Graph = Sequence<Sequence<usize>>;

/// Which numbers are reached, and in which order they were.
#[derive(Drop)]
pub struct Search {
    marks: Sequence<bool>,
    queue: Sequence<usize>,
}

impl Search {
    fn new(alloc: Global, graph: &Graph) -> Result<Search, NoMemory>
        ensures { IfOk result (λ s. s ≡ Graph.unmarked graph.now) }
    {
        let marks = vec![in alloc; false; graph.len()]?;
        Ok(Search {
            marks: Sequence::from_vec(marks),
            queue: Sequence::new(alloc),
        })
    }

    /// Marks a number that isn't marked, and puts it behind those that wait.
    #[tactic(auto, unfolding(crate::specs::Graph::mark))]
    fn mark(&mut self, target: usize) -> Result<(), NoMemory>
        ensures { OnOk result (self.new ≡ Graph.mark target self.old) }
    {
        match self.marks.get(target) {
            None => Ok(()),
            Some(marked) => {
                if *marked {
                    Ok(())
                } else {
                    self.marks.set(target, true);
                    self.queue.push(target)
                }
            }
        }
    }

    #[tactic(auto, unfolding(crate::specs::Graph::visit))]
    fn visit(&mut self, targets: &[usize]) -> Result<(), NoMemory>
        ensures { OnOk result (self.new ≡ Graph.visit targets.now self.old) }
    {
        for target in targets {
            self.mark(*target)?;
        }
        Ok(())
    }

    /// The turn of the number at a place of the queue.
    fn turn(&mut self, graph: &Graph, place: usize) -> Result<(), NoMemory>
        ensures { OnOk result (self.new
            ≡ Graph.visit (Graph.targets_at graph.now (slice_get self.old.queue place)) self.old) }
    {
        let number = match self.queue.get(place) {
            None => return Ok(()),
            Some(number) => *number,
        };
        self.visit(targets_of(graph, number))
    }

    fn is_marked(&self, number: usize) -> bool
        ensures { result ≡ Graph.is_marked (slice_get self.now.marks number) }
    {
        match self.marks.get(number) {
            None => false,
            Some(marked) => *marked,
        }
    }
}

pub fn targets_of(graph: &Graph, number: usize) -> &[usize]
    ensures { result.now ≡ Graph.edges graph.now number }
{
    match graph.get(number) {
        None => &[],
        Some(targets) => targets.as_slice(),
    }
}

/// Whether a number leads back to itself.
#[tactic(auto, unfolding(crate::specs::Graph::leads_back))]
pub fn leads_back(alloc: Global, graph: &Graph, number: usize) -> Result<bool, NoMemory>
    ensures { IfOk result (λ r. r ≡ Graph.leads_back graph.now (length graph.now) number) }
{
    let mut search = Search::new(alloc, graph)?;
    search.visit(targets_of(graph, number))?;
    for place in 0..graph.len() {
        search.turn(graph, place)?;
    }
    Ok(search.is_marked(number))
}
