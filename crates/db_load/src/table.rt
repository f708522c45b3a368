//! Variables and tables from the elements of a text.

ghost use Rattle.std.specs.Prelude.{◌≡◌, IfOk};
ghost use Rattle.db_load.specs.Whole;
ghost use Rattle.db_load.specs.declared.word.Word.TheVariants as word;

use crate::Word;
use crate::from_node::{FromNode, each_of};
use crate::value::{is_word, literal_by, name_by, number_by, ty_by, value_at, variable_name_by};
use db_model::{ColumnDecl, KeyDecl, NoMemory, TableDecl, Ty, VarDecl, VarValidity};
use db_text::Node;
use std::alloc::Global;

fn validity_of(node: &Node) -> Option<VarValidity>
    ensures { result ≡ Whole.lasting_by (Whole.of node.now word.Validity) }
{
    if is_word(value_at(node, Word::Validity), Word::Packet) {
        Some(VarValidity::Packet)
    } else {
        None
    }
}

impl FromNode for VarDecl {
    ghost means = { Whole.variable };

    fn from_node(alloc: Global, node: &Node) -> Result<VarDecl, NoMemory> {
        Ok(VarDecl {
            line: node.line,
            name: variable_name_by(alloc, node, Word::Name)?,
            ty: ty_by(node, Word::Type),
            value: literal_by(alloc, node, Word::Value)?,
            validity: validity_of(node),
        })
    }
}

impl FromNode for KeyDecl {
    ghost means = { Whole.key };

    fn from_node(alloc: Global, node: &Node) -> Result<KeyDecl, NoMemory> {
        Ok(KeyDecl {
            line: node.line,
            name: name_by(alloc, node, Word::Name)?,
            size: number_by(node, Word::Size),
        })
    }
}

/// The size of a column, which one of bytes has and no other.
fn size_of(ty: Ty, node: &Node) -> Option<u32>
    ensures { result ≡ Whole.size_by ty (Whole.of node.now word.Size) }
{
    match ty {
        Ty::Num => None,
        Ty::Buf => Some(number_by(node, Word::Size)),
        Ty::Proto => None,
    }
}

impl FromNode for ColumnDecl {
    ghost means = { Whole.column };

    fn from_node(alloc: Global, node: &Node) -> Result<ColumnDecl, NoMemory> {
        let ty = ty_by(node, Word::Type);
        Ok(ColumnDecl {
            line: node.line,
            name: name_by(alloc, node, Word::Name)?,
            ty,
            size: size_of(ty, node),
        })
    }
}

impl FromNode for TableDecl {
    ghost means = { Whole.table };

    fn from_node(alloc: Global, node: &Node) -> Result<TableDecl, NoMemory> {
        let nodes = node.children.as_slice();
        Ok(TableDecl {
            line: node.line,
            name: name_by(alloc, node, Word::Name)?,
            exact_entries: number_by(node, Word::ExactEntries),
            mask_entries: number_by(node, Word::MaskEntries),
            keys: each_of(alloc, Word::Key, nodes)?,
            columns: each_of(alloc, Word::Data, nodes)?,
        })
    }
}
