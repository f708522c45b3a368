//! Declarations from the elements of a text.

ghost use Rattle.std.specs.Prelude.{◌≡◌, ◌∷◌, [], IfOk};
ghost use Rattle.db_load.specs.Whole;

use crate::Word;
use crate::element::push_some;
use db_model::NoMemory;
use db_text::Node;
use sqlite_items::Items;
use std::alloc::Global;

/// What is read from one element.
pub trait FromNode: Sized {
    ghost use Rattle.db_text.specs.declared.node.Node.{Node};

    /// What an element means.
    ghost means: { Node → Self };

    /// What an element means. Values that are missing or haven't their forms mean something of their kind.
    fn from_node(alloc: Global, node: &Node) -> Result<Self, NoMemory>
        ensures { IfOk result (λ it. it ≡ means node.now) };
}

/// What an element means, where it has this name.
fn if_named<T: FromNode>(alloc: Global, word: Word, node: &Node) -> Result<Option<T>, NoMemory>
    ensures { IfOk result (λ it. it ≡ Whole.one_of word T.means (node.now ∷ [])) }
{
    if node.name.as_slice() != word.spelled() {
        return Ok(None);
    }
    Ok(Some(T::from_node(alloc, node)?))
}

/// The elements of a name, in order.
pub fn each_of<T: FromNode + Drop>(
    alloc: Global,
    word: Word,
    nodes: &[Node],
) -> Result<Items<T>, NoMemory>
    ensures { IfOk result (λ its. its ≡ Whole.each_of word T.means nodes.now) }
{
    let mut items = Items::new(alloc);
    for node in nodes {
        let found = if_named(alloc, word, node)?;
        push_some(&mut items, found)?;
    }
    Ok(items)
}

/// The first element of a name.
pub fn one_of<T: FromNode>(alloc: Global, word: Word, nodes: &[Node]) -> Result<Option<T>, NoMemory>
    ensures { IfOk result (λ it. it ≡ Whole.one_of word T.means nodes.now) }
{
    for node in nodes {
        if node.name.as_slice() == word.spelled() {
            return Ok(Some(T::from_node(alloc, node)?));
        }
    }
    Ok(None)
}
