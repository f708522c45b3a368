ghost use Rattle.std.specs.Prelude.{◌≡◌, ◌<◌, ◌++◌, IfOk, OnOk, length};
ghost use Rattle.std.specs.List.{flat_map};
ghost use Rattle.show.specs.Markup.{escaped};
ghost use Rattle.psml_out.specs.Psml;
ghost use Rattle.psml_out.specs.Summaries.{sections};

use crate::pieces::push_proto;
use crate::source::{Source, Summed};
use crate::summaries::sections_of;
use db_model::{CheckedDb, NoMemory, Packet, PacketTree, Proto, SectionDecl};
use show::{TextForm, push, push_written};
use std::alloc::Global;

/// Adds the text of the section of this number.
#[tactic(auto, unfolding(crate::specs::Psml::section_text))]
fn push_section_text(
    text: &mut Vec<u8>,
    source: &Source,
    section: usize,
    tree: &[Proto],
) -> Result<(), NoMemory>
    requires { section < length (sections source.now.db.now) }
    ensures { OnOk result (text.new.items ≡ text.old.items
        ++ escaped (Psml.section_text source.now.db.now source.now.packet.now tree.now section)) }
{
    for proto in tree {
        push_proto(text, source, section, proto)?;
    }
    Ok(())
}

/// Adds the line of the section of this number.
fn push_section(
    text: &mut Vec<u8>,
    source: &Source,
    section: usize,
    tree: &[Proto],
) -> Result<(), NoMemory>
    requires { section < length (sections source.now.db.now) }
    ensures { OnOk result (text.new.items ≡ text.old.items
        ++ Psml.section_line (Psml.section_text source.now.db.now source.now.packet.now tree.now section)) }
{
    push(text, b"<section>")?;
    push_section_text(text, source, section, tree)?;
    push(text, b"</section>\n")
}

#[tactic(auto, using(crate::proofs::SectionLines::one_more))]
fn push_sections(text: &mut Vec<u8>, source: &Source, tree: &[Proto]) -> Result<(), NoMemory>
    ensures { OnOk result (text.new.items ≡ text.old.items
        ++ flat_map Psml.section_line (Psml.section_texts source.now.db.now source.now.packet.now tree.now)) }
{
    let count = section_count(source.db.labelled().database());
    for section in 0..count {
        push_section(text, source, section, tree)?;
    }
    Ok(())
}

fn section_count(db: &CheckedDb) -> usize
    ensures { result ≡ length (sections db.now) }
{
    sections_of(db.database()).len()
}

/// Adds the text of a packet with its tree. A buffer that is cleared and handed in again keeps its room.
#[tactic(auto, unfolding(crate::specs::Psml::packet_text))]
pub fn push_packet_text(
    text: &mut Vec<u8>,
    db: &Summed,
    packet: &Packet,
    tree: &PacketTree,
) -> Result<(), NoMemory>
    ensures { OnOk result (text.new.items ≡
        text.old.items ++ Psml.packet_text db.now packet.now tree.now) }
{
    push(text, b"<packet>\n")?;
    push_sections(text, &Source { db, packet }, tree.as_slice())?;
    push(text, b"</packet>\n")
}

/// The text of a packet with its tree.
pub fn packet_text(
    alloc: Global,
    db: &Summed,
    packet: &Packet,
    tree: &PacketTree,
) -> Result<Vec<u8>, NoMemory>
    ensures { IfOk result (λ text. text.items ≡ Psml.packet_text db.now packet.now tree.now) }
{
    let mut text = Vec::new(alloc);
    push_packet_text(&mut text, db, packet, tree)?;
    Ok(text)
}

/// Adds a line for the name of each section.
fn push_names(text: &mut Vec<u8>, declared: &[SectionDecl]) -> Result<(), NoMemory>
    ensures { OnOk result (text.new.items ≡
        text.old.items ++ flat_map Psml.name_line declared.now) }
{
    for section in declared {
        push_name(text, section.name.as_slice())?;
    }
    Ok(())
}

fn push_name(text: &mut Vec<u8>, name: &[u8]) -> Result<(), NoMemory>
    ensures { OnOk result (text.new.items ≡ text.old.items ++ Psml.section_line name.now) }
{
    push(text, b"<section>")?;
    push_written(text, TextForm::Markup, name)?;
    push(text, b"</section>\n")
}

/// What stands before the packets.
#[tactic(auto, unfolding(crate::specs::Psml::opening))]
pub fn opening(alloc: Global, db: &CheckedDb) -> Result<Vec<u8>, NoMemory>
    ensures { IfOk result (λ text. text.items ≡ Psml.opening db.now) }
{
    let mut text = Vec::new(alloc);
    push(
        &mut text,
        b"<?xml version=\"1.0\"?>\n<psml version=\"0\" creator=\"npd\">\n<structure>\n",
    )?;
    push_names(&mut text, sections_of(db.database()))?;
    push(&mut text, b"</structure>\n")?;
    Ok(text)
}

/// What stands behind the packets. Takes no memory.
pub fn closing() -> &'static [u8]
    ensures { result.now ≡ Psml.closing }
{
    b"</psml>\n"
}
