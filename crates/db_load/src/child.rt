//! The faults of what stands in an element.

ghost use Rattle.std.specs.Prelude.{◌≡◌, ◌≤◌, length, map};
ghost use Rattle.std.specs.Option.{option_copied};
ghost use Rattle.db_text.specs.declared.node.Node.{Node, out-Node};
ghost use Rattle.db_load.specs.Faults;
ghost use Rattle.db_load.specs.Words.{spelled};

use crate::{Child, Kind, Word, children, is_ordered};
use db_text::Node;

/// The row under which an element of this name stands.
pub fn row_of(rows: &[Child], name: &[u8]) -> Option<Child>
    ensures { result ≡ Faults.row_of rows.now name.now }
{
    for row in rows {
        if name == row.word.spelled() {
            return Some(*row);
        }
    }
    None
}

/// How many of the elements have this name.
fn count_of(nodes: &[Node], word: Word) -> usize
    ensures value { result ≡ Faults.count_of (Faults.names_in nodes.now) (spelled word) }
    ensures bound { result ≤ length nodes.now }
{
    let mut count = 0;
    for node in nodes {
        if node.name.as_slice() == word.spelled() {
            count += 1;
        }
    }
    count
}

fn is_counted(nodes: &[Node], row: Child) -> bool
    ensures { result ≡ Faults.is_counted (Faults.names_in nodes.now) row }
{
    let count = count_of(nodes, row.word);
    row.least <= count
        && match row.most {
            None => true,
            Some(most) => count <= most,
        }
}

fn miscounts(nodes: &[Node], rows: &[Child]) -> bool
    ensures { result ≡ Faults.miscounts (Faults.names_in nodes.now) rows.now }
{
    for row in rows {
        if !is_counted(nodes, *row) {
            return true;
        }
    }
    false
}

/// The place of the row of a name, or how many rows there are.
fn place_of(rows: &[Child], name: &[u8]) -> usize
    ensures value { result ≡ Faults.place_of rows.now name.now }
    ensures within { result ≤ length rows.now }
{
    for (i, row) in rows.iter().enumerate() {
        if name == row.word.spelled() {
            return i;
        }
    }
    rows.len()
}

#[tactic(auto, using(crate::proofs::Rows::row_or_none))]
fn is_row(rows: &[Child], name: &[u8]) -> bool
    ensures { result ≡ Faults.is_row rows.now name.now }
{
    row_of(rows, name).is_some()
}

/// Whether an element stands behind one of a later row.
fn disorders(rows: &[Child], nodes: &[Node]) -> bool
    ensures { result ≡ Faults.disorders rows.now 0 (Faults.names_in nodes.now) }
{
    let mut least = 0;
    for node in nodes {
        let name = node.name.as_slice();
        if is_row(rows, name) {
            let place = place_of(rows, name);
            if place < least {
                return true;
            }
            least = place;
        }
    }
    false
}

/// Whether number or order of what stands in an element is wrong.
pub fn has_wrong_children(kind: Kind, nodes: &[Node]) -> bool
    ensures { result ≡ Faults.has_wrong_children kind (Faults.names_in nodes.now) }
{
    miscounts(nodes, children(kind)) || is_ordered(kind) && disorders(children(kind), nodes)
}
