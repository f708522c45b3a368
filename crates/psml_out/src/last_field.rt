ghost use Rattle.std.specs.Prelude.{◌≡◌};
ghost use Rattle.std.specs.Option.{option_copied, option_map};
ghost use Rattle.show.specs.Labels.{labels_of};
ghost use Rattle.psml_out.specs.Fields;

use db_model::Node;
use show::{FieldLabel, Labelled};

/// A field of a tree: its number in its protocol, and its value.
#[derive(Clone, Copy)]
pub struct FieldValue<'a> {
    pub field: u32,
    pub value: &'a [u8],
}

fn is_named(label: Option<&FieldLabel>, name: &[u8]) -> bool
    ensures { result ≡ Fields.is_named name.now (option_copied label.entry) }
{
    match label {
        Some(label) => label.naming().name.as_slice() == name,
        None => false,
    }
}

/// The last field of this name among nodes of the protocol of this number, those in blocks included.
#[cycle(last_field)]
#[tactic(auto, using(crate::proofs::LastField::met, crate::proofs::LastField::passed))]
pub fn last_field<'a>(
    db: &Labelled,
    protocol: u16,
    name: &[u8],
    nodes: &'a [Node],
) -> Option<FieldValue<'a>>
    ensures { option_map Fields.seen result ≡ Fields.last_field (labels_of db.now) protocol name.now nodes.now }
{
    for i in (0..nodes.len()).rev() {
        if let Some(found) = last_in_node(db, protocol, name, &nodes[i]) {
            return Some(found);
        }
    }
    None
}

#[cycle(last_field)]
#[tactic(auto, using(crate::proofs::LastField::field_named, crate::proofs::LastField::field_other, crate::proofs::LastField::in_block, crate::proofs::LastField::in_note))]
fn last_in_node<'a>(
    db: &Labelled,
    protocol: u16,
    name: &[u8],
    node: &'a Node,
) -> Option<FieldValue<'a>>
    ensures { option_map Fields.seen result ≡ Fields.last_in_node (labels_of db.now) protocol name.now node.now }
{
    match node {
        Node::Field { field, value, .. } => {
            if is_named(db.field(protocol, *field), name) {
                Some(FieldValue {
                    field: *field,
                    value: value.as_slice(),
                })
            } else {
                None
            }
        }
        Node::Block { nodes, .. } => last_field(db, protocol, name, nodes.as_slice()),
        Node::Note { .. } => None,
    }
}
