ghost use Rattle.std.specs.Prelude.{◌≡◌, ◌++◌, OnOk, codes};
ghost use Rattle.pdml_out.specs.Pdml;

use crate::lines::{push_block_line, push_field, push_note};
use db_model::{NoMemory, Node};
use show::{Labelled, push};

/// Adds the nodes of the protocol of this number, in order.
#[cycle(nodes)]
pub fn push_nodes(
    text: &mut Vec<u8>,
    db: &Labelled,
    protocol: u16,
    nodes: &[Node],
) -> Result<(), NoMemory>
    ensures { OnOk result (text.new.items ≡
        text.old.items ++ Pdml.nodes_text db.now protocol nodes.now) }
{
    for node in nodes {
        push_node(text, db, protocol, node)?;
    }
    Ok(())
}

#[cycle(nodes)]
fn push_node(text: &mut Vec<u8>, db: &Labelled, protocol: u16, node: &Node) -> Result<(), NoMemory>
    ensures { OnOk result (text.new.items ≡
        text.old.items ++ Pdml.node_text db.now protocol node.now) }
{
    match node {
        Node::Field {
            field,
            pos,
            size,
            value,
        } => push_field(
            text,
            db,
            db.field(protocol, *field),
            *pos,
            *size,
            value.as_slice(),
        ),
        Node::Block {
            block,
            pos,
            size,
            nodes,
        } => {
            push_block_line(text, db.block(protocol, *block), *pos, *size)?;
            push_nodes(text, db, protocol, nodes.as_slice())?;
            push(text, b"</block>\n")
        }
        Node::Note { reason, pos } => push_note(text, *reason, *pos),
    }
}
