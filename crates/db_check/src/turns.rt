//! Finds a topological order in linear time, by counting for each number those that lead to it and haven't had their
//! turn. It says nothing of what it finds: whoever asks for an order tests it.

use crate::search::{Graph, targets_of};
use db_model::{NoMemory, Sequence};
use std::alloc::Global;

/// So many zeros.
fn zeros(alloc: Global, count: usize) -> Result<Sequence<usize>, NoMemory> {
    Ok(Sequence::from_vec(vec![in alloc; 0usize; count]?))
}

/// One more leads to a number.
fn count_one(counts: &mut Sequence<usize>, target: usize) {
    match counts.get(target) {
        None => (),
        Some(count) => {
            let count = count.saturating_add(1);
            counts.set(target, count);
        }
    }
}

fn count_all(counts: &mut Sequence<usize>, targets: &[usize]) {
    for target in targets {
        count_one(counts, *target);
    }
}

/// How many lead to each number.
fn counts(alloc: Global, graph: &Graph) -> Result<Sequence<usize>, NoMemory> {
    let mut counts = zeros(alloc, graph.len())?;
    for targets in graph.as_slice() {
        count_all(&mut counts, targets.as_slice());
    }
    Ok(counts)
}

/// The numbers whose turn it is, one after another.
#[derive(Drop)]
struct Queue {
    /// How many lead to each number and haven't had their turn.
    waits: Sequence<usize>,
    /// Those for which all that lead to them had their turn.
    ready: Sequence<usize>,
    turns: Sequence<usize>,
}

impl Queue {
    /// Those that nothing leads to are ready.
    fn new(alloc: Global, graph: &Graph) -> Result<Queue, NoMemory> {
        let waits = counts(alloc, graph)?;
        let mut ready = Sequence::new(alloc);
        for (number, count) in waits.as_slice().iter().enumerate() {
            if *count == 0 {
                ready.push(number)?;
            }
        }
        let turns = zeros(alloc, graph.len())?;
        Ok(Queue {
            waits,
            ready,
            turns,
        })
    }

    /// One of those that lead to a number had its turn.
    fn release(&mut self, target: usize) -> Result<(), NoMemory> {
        match self.waits.get(target) {
            None => Ok(()),
            Some(count) => {
                let left = count.saturating_sub(1);
                self.waits.set(target, left);
                if left == 0 {
                    self.ready.push(target)
                } else {
                    Ok(())
                }
            }
        }
    }

    fn give(&mut self, number: usize, turn: usize) {
        if number < self.turns.len() {
            self.turns.set(number, turn);
        }
    }

    /// The number at a place of the queue has its turn, if there is one.
    fn advance(&mut self, graph: &Graph, place: usize, turn: usize) -> Result<(), NoMemory> {
        let number = match self.ready.get(place) {
            None => return Ok(()),
            Some(number) => *number,
        };
        self.give(number, turn);
        for target in targets_of(graph, number) {
            self.release(*target)?;
        }
        Ok(())
    }
}

/// Turns of the numbers of a graph, the greater the earlier. A number has none, and a 0 in its place, where a cycle
/// leads to it or it is on one.
pub fn find(alloc: Global, graph: &Graph) -> Result<Sequence<usize>, NoMemory> {
    let mut queue = Queue::new(alloc, graph)?;
    let count = graph.len();
    for place in 0..count {
        queue.advance(graph, place, count - place)?;
    }
    let Queue { turns, .. } = queue;
    Ok(turns)
}
