//! The keys and the data of an update.

ghost use Rattle.std.specs.Prelude.{◌≡◌, map, IfOk};
ghost use Rattle.db_text.specs.declared.node.Node.{Node};
ghost use Rattle.db_load.specs.Meaning;
ghost use Rattle.db_load.specs.declared.word.Word.TheVariants as word;

use crate::Word;
use crate::from_node::{FromNode, each_of};
use crate::value::{expr_by, mask_by};
use db_model::{NoMemory, UpdateKey, UpdateValue};
use db_text::Node;
use sqlite_items::Items;
use std::alloc::Global;

impl FromNode for UpdateKey {
    ghost means = { λ (n : Node). Meaning.key_by (Meaning.meant n) };

    #[tactic(auto, using(crate::proofs::Means::meant_line, crate::proofs::Means::meant_attributes))]
    fn from_node(alloc: Global, node: &Node) -> Result<UpdateKey, NoMemory> {
        Ok(UpdateKey {
            line: node.line,
            mask: mask_by(alloc, node, Word::Mask)?,
            value: expr_by(alloc, node, Word::Value)?,
        })
    }
}

impl FromNode for UpdateValue {
    ghost means = { λ (n : Node). Meaning.value_by (Meaning.meant n) };

    #[tactic(auto, using(crate::proofs::Means::meant_line, crate::proofs::Means::meant_attributes))]
    fn from_node(alloc: Global, node: &Node) -> Result<UpdateValue, NoMemory> {
        Ok(UpdateValue {
            line: node.line,
            value: expr_by(alloc, node, Word::Value)?,
        })
    }
}

/// The keys among what stands in an update.
#[tactic(auto, using(crate::proofs::Clean::named_each))]
pub fn keys(alloc: Global, nodes: &[Node]) -> Result<Items<UpdateKey>, NoMemory>
    ensures { IfOk result (λ ks. ks ≡ Meaning.named word.Key Meaning.key_by (map Meaning.meant nodes.now)) }
{
    each_of(alloc, Word::Key, nodes)
}

/// The data among what stands in an update.
#[tactic(auto, using(crate::proofs::Clean::named_each))]
pub fn values(alloc: Global, nodes: &[Node]) -> Result<Items<UpdateValue>, NoMemory>
    ensures { IfOk result (λ vs. vs ≡ Meaning.named word.Data Meaning.value_by (map Meaning.meant nodes.now)) }
{
    each_of(alloc, Word::Data, nodes)
}
