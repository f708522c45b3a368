ghost use Rattle.std.specs.Prelude.{◌≡◌, ◌++◌, IfOk, OnOk, codes};
ghost use Rattle.std.specs.List.{flat_map};
ghost use Rattle.pdml_out.specs.Pdml;

use crate::lines::{push_payload_field, push_payload_line, push_protocol_line};
use crate::nodes::push_nodes;
use db_model::{NoMemory, Node, PAYLOAD, Packet, PacketTree, Proto};
use show::{Labelled, push, push_number, push_timestamp};
use std::alloc::Global;

/// Adds a protocol of the database.
fn push_protocol(text: &mut Vec<u8>, db: &Labelled, proto: &Proto) -> Result<(), NoMemory>
    ensures { OnOk result (text.new.items ≡ text.old.items ++ Pdml.protocol_text db.now proto.now) }
{
    push_protocol_line(text, db.line(proto.number), proto.pos, proto.size)?;
    push_nodes(text, db, proto.number, proto.nodes.as_slice())?;
    push(text, b"</proto>\n")
}

fn push_payload_node(text: &mut Vec<u8>, node: &Node) -> Result<(), NoMemory>
    ensures { OnOk result (text.new.items ≡ text.old.items ++ Pdml.payload_node_text node.now) }
{
    match node {
        Node::Field {
            pos,
            size,
            value,
            ..
        } => push_payload_field(text, *pos, *size, value.as_slice()),
        _ => Ok(()),
    }
}

fn push_payload_nodes(text: &mut Vec<u8>, nodes: &[Node]) -> Result<(), NoMemory>
    ensures { OnOk result (text.new.items ≡
        text.old.items ++ flat_map Pdml.payload_node_text nodes.now) }
{
    for node in nodes {
        push_payload_node(text, node)?;
    }
    Ok(())
}

/// Adds the payload.
fn push_payload(text: &mut Vec<u8>, proto: &Proto) -> Result<(), NoMemory>
    ensures { OnOk result (text.new.items ≡ text.old.items ++ Pdml.payload_text proto.now) }
{
    push_payload_line(text, proto.pos, proto.size)?;
    push_payload_nodes(text, proto.nodes.as_slice())?;
    push(text, b"</proto>\n")
}

/// Adds a protocol of the tree.
#[tactic(auto, unfolding(crate::specs::Pdml::proto_text))]
fn push_proto(text: &mut Vec<u8>, db: &Labelled, proto: &Proto) -> Result<(), NoMemory>
    ensures { OnOk result (text.new.items ≡ text.old.items ++ Pdml.proto_text db.now proto.now) }
{
    if proto.number == PAYLOAD {
        push_payload(text, proto)
    } else {
        push_protocol(text, db, proto)
    }
}

fn push_protos(text: &mut Vec<u8>, db: &Labelled, protos: &[Proto]) -> Result<(), NoMemory>
    ensures { OnOk result (text.new.items ≡
        text.old.items ++ flat_map (Pdml.proto_text db.now) protos.now) }
{
    for proto in protos {
        push_proto(text, db, proto)?;
    }
    Ok(())
}

/// Adds the line that opens a packet.
#[tactic(auto, unfolding(crate::specs::Pdml::packet_line))]
fn push_packet_line(text: &mut Vec<u8>, packet: &Packet) -> Result<(), NoMemory>
    ensures { OnOk result (text.new.items ≡ text.old.items ++ Pdml.packet_line packet.now) }
{
    push(text, b"<packet number=\"")?;
    push_number(text, packet.number)?;
    push(text, b"\" caplen=\"")?;
    push_number(text, packet.bytes.as_slice().len() as u64)?;
    push(text, b"\" length=\"")?;
    push_number(text, u64::from(packet.length))?;
    push(text, b"\" timestamp=\"")?;
    push_timestamp(text, packet.stamp)?;
    push(text, b"\">\n")
}

/// Adds the text of a packet with its tree. A buffer that is cleared and handed in again keeps its room.
#[tactic(auto, unfolding(crate::specs::Pdml::packet_text))]
pub fn push_packet_text(
    text: &mut Vec<u8>,
    db: &Labelled,
    packet: &Packet,
    tree: &PacketTree,
) -> Result<(), NoMemory>
    ensures { OnOk result (text.new.items ≡
        text.old.items ++ Pdml.packet_text db.now packet.now tree.now) }
{
    push_packet_line(text, packet)?;
    push_protos(text, db, tree.as_slice())?;
    push(text, b"</packet>\n")
}

/// The text of a packet with its tree.
pub fn packet_text(
    alloc: Global,
    db: &Labelled,
    packet: &Packet,
    tree: &PacketTree,
) -> Result<Vec<u8>, NoMemory>
    ensures { IfOk result (λ text. text.items ≡ Pdml.packet_text db.now packet.now tree.now) }
{
    let mut text = Vec::new(alloc);
    push_packet_text(&mut text, db, packet, tree)?;
    Ok(text)
}

/// What stands before the packets. Takes no memory.
pub fn opening() -> &'static [u8]
    ensures { result.now ≡ Pdml.opening }
{
    b"<?xml version=\"1.0\"?>\n<pdml version=\"0\" creator=\"npd\">\n"
}

/// What stands behind the packets. Takes no memory.
pub fn closing() -> &'static [u8]
    ensures { result.now ≡ Pdml.closing }
{
    b"</pdml>\n"
}
