use db_model::{Bytes, CheckedDb, NoMemory, Node, Nodes, PAYLOAD, Packet, PacketTree, Proto};
use psml_out::{Summaries, Summed};
use show::{Labelled, Labels};
use std::alloc::Global;
use std::test::Fail;

/// What the outputs have of the smallest database, which has one protocol without parts and no section: whether that
/// protocol has no labels and no pieces of a summary, what stands before the packets where the sections are named, and
/// the texts of one packet.
#[derive(Drop)]
struct Written {
    has_nothing: bool,
    psml_opening: Vec<u8>,
    pdml: Vec<u8>,
    psml: Vec<u8>,
}

/// Three captured bytes of a packet that had 60.
fn packet(alloc: Global) -> Result<Packet, NoMemory> {
    Ok(Packet {
        number: 7,
        link: 1,
        stamp: 5_000_000_007,
        length: 60,
        bytes: Bytes::copy_of(alloc, b"HI&")?,
    })
}

/// All of it as payload.
fn payload(alloc: Global) -> Result<PacketTree, NoMemory> {
    let mut nodes = Nodes::new(alloc);
    nodes.push(Node::Field {
        field: 0,
        pos: 0,
        size: 3,
        value: Bytes::copy_of(alloc, b"HI&")?,
    })?;
    let mut protos = PacketTree::new(alloc);
    protos.push(Proto {
        number: PAYLOAD,
        pos: 0,
        size: 3,
        nodes,
    })?;
    Ok(protos)
}

fn labels_are_none(alloc: Global, db: &CheckedDb) -> Result<bool, NoMemory> {
    let labels = Labels::of(alloc, db)?;
    Ok(labels.field(0, 0).is_none() && labels.block(0, 0).is_none())
}

fn pieces_are_none(alloc: Global, db: &CheckedDb) -> Result<bool, NoMemory> {
    let summaries = Summaries::of(alloc, db)?;
    Ok(summaries.contents_of(0, 0).is_empty())
}

fn has_nothing(alloc: Global, db: &CheckedDb) -> Result<bool, NoMemory> {
    Ok(labels_are_none(alloc, db)? && pieces_are_none(alloc, db)?)
}

fn pdml_of(
    alloc: Global,
    db: &CheckedDb,
    packet: &Packet,
    tree: &PacketTree,
) -> Result<Vec<u8>, NoMemory> {
    let labels = Labels::of(alloc, db)?;
    pdml_out::packet_text(alloc, &Labelled::of(db, &labels), packet, tree)
}

fn psml_of(
    alloc: Global,
    db: &CheckedDb,
    packet: &Packet,
    tree: &PacketTree,
) -> Result<Vec<u8>, NoMemory> {
    let labels = Labels::of(alloc, db)?;
    let summaries = Summaries::of(alloc, db)?;
    let db = Summed::of(Labelled::of(db, &labels), &summaries);
    psml_out::packet_text(alloc, &db, packet, tree)
}

fn written_of(
    alloc: Global,
    db: &CheckedDb,
    packet: &Packet,
    tree: &PacketTree,
) -> Result<Written, NoMemory> {
    Ok(Written {
        has_nothing: has_nothing(alloc, db)?,
        psml_opening: psml_out::opening(alloc, db)?,
        pdml: pdml_of(alloc, db, packet, tree)?,
        psml: psml_of(alloc, db, packet, tree)?,
    })
}

fn written_in(alloc: Global, db: &CheckedDb) -> Result<Written, NoMemory> {
    let packet = packet(alloc)?;
    let tree = payload(alloc)?;
    written_of(alloc, db, &packet, &tree)
}

fn all_written(alloc: Global) -> Result<Written, NoMemory> {
    let bare = CheckedDb::bare(alloc)?;
    written_in(alloc, &bare)
}

fn is_text(text: &Vec<u8>, wanted: &str) -> bool {
    text.as_slice() == wanted.as_bytes()
}

#[test]
fn the_smallest_database_has_its_texts(rt: HostRuntime) -> Result<(), Fail> {
    let written = all_written(rt.alloc())?;
    assert!(rt; written.has_nothing);
    let opening =
        "<?xml version=\"1.0\"?>\n<psml version=\"0\" creator=\"npd\">\n<structure>\n</structure>\n";
    assert!(rt; is_text(&written.psml_opening, opening));
    let pdml = "<packet number=\"7\" caplen=\"3\" length=\"60\" timestamp=\"5.000000007\">\n\
<proto name=\"payload\" pos=\"0\" size=\"3\">\n\
<field name=\"data\" pos=\"0\" size=\"3\" value=\"484926\" show=\"HI&amp;\"/>\n\
</proto>\n\
</packet>\n";
    assert!(rt; is_text(&written.pdml, pdml));
    assert!(rt; is_text(&written.psml, "<packet>\n</packet>\n"));
    Ok(())
}
