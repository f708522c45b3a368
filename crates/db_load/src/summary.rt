//! Templates and the summary from the elements of a text.

ghost use Rattle.std.specs.Prelude.{◌≡◌, IfOk};
ghost use Rattle.db_load.specs.Whole;

use crate::Word;
use crate::element::push_some;
use crate::from_node::{FromNode, each_of};
use crate::value::{
    filled_by, header_part_by, name_by, number_by, section_by, separator_by, show_type_by,
};
use db_model::{NoMemory, SectionDecl, ShowTemplate, SumItem, SumStruct, SumTemplate};
use db_text::Node;
use sqlite_items::Items;
use std::alloc::Global;

impl FromNode for ShowTemplate {
    ghost means = { Whole.show_template };

    fn from_node(alloc: Global, node: &Node) -> Result<ShowTemplate, NoMemory> {
        Ok(ShowTemplate {
            line: node.line,
            name: name_by(alloc, node, Word::Name)?,
            show_type: show_type_by(node, Word::ShowType),
            group: number_by(node, Word::ShowGrp),
            separator: separator_by(alloc, node, Word::ShowSep)?,
        })
    }
}

impl FromNode for SectionDecl {
    ghost means = { Whole.section };

    fn from_node(alloc: Global, node: &Node) -> Result<SectionDecl, NoMemory> {
        Ok(SectionDecl {
            line: node.line,
            name: section_by(alloc, node, Word::Name)?,
        })
    }
}

impl FromNode for SumStruct {
    ghost means = { Whole.sum_struct };

    fn from_node(alloc: Global, node: &Node) -> Result<SumStruct, NoMemory> {
        Ok(SumStruct {
            line: node.line,
            sections: each_of(alloc, Word::Section, node.children.as_slice())?,
        })
    }
}

fn is_named(node: &Node, word: Word) -> bool
    ensures { result ≡ Whole.is word node.now }
{
    node.name.as_slice() == word.spelled()
}

/// The item of a sum template that an element is, if it is one.
fn item_of(alloc: Global, node: &Node) -> Result<Option<SumItem>, NoMemory>
    ensures { IfOk result (λ i. i ≡ Whole.item_of node.now) }
{
    let line = node.line;
    if is_named(node, Word::Section) {
        let name = section_by(alloc, node, Word::Name)?;
        Ok(Some(SumItem::Section { line, name }))
    } else if is_named(node, Word::Text) {
        let value = filled_by(alloc, node, Word::Value)?;
        Ok(Some(SumItem::Text { line, value }))
    } else if is_named(node, Word::ProtoField) {
        let name = name_by(alloc, node, Word::Name)?;
        Ok(Some(SumItem::ProtoField { line, name }))
    } else if is_named(node, Word::PacketHdr) {
        let value = header_part_by(node, Word::Value);
        Ok(Some(SumItem::PacketHdr { line, value }))
    } else {
        Ok(None)
    }
}

fn items_in(alloc: Global, nodes: &[Node]) -> Result<Items<SumItem>, NoMemory>
    ensures { IfOk result (λ is. is ≡ Whole.items_in nodes.now) }
{
    let mut items = Items::new(alloc);
    for node in nodes {
        let found = item_of(alloc, node)?;
        push_some(&mut items, found)?;
    }
    Ok(items)
}

impl FromNode for SumTemplate {
    ghost means = { Whole.sum_template };

    fn from_node(alloc: Global, node: &Node) -> Result<SumTemplate, NoMemory> {
        Ok(SumTemplate {
            line: node.line,
            name: name_by(alloc, node, Word::Name)?,
            items: items_in(alloc, node.children.as_slice())?,
        })
    }
}
