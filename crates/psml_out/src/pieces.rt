ghost use Rattle.std.specs.Prelude.{◌≡◌, ◌<◌, ◌++◌, OnOk, decimal, length};
ghost use Rattle.std.specs.List.{flat_map};
ghost use Rattle.show.specs.Markup.{escaped};
ghost use Rattle.show.specs.Stamps.{timestamp};
ghost use Rattle.psml_out.specs.Psml;
ghost use Rattle.psml_out.specs.Summaries.{sections};

use crate::last_field::last_field;
use crate::source::Source;
use crate::summaries::Content;
use db_model::{HeaderPart, NoMemory, Packet, Proto, Stamp};
use show::{TextForm, push_field_shown, push_number, push_timestamp, push_written};

#[tactic(auto, using(crate::proofs::Escaping::escaped_decimal))]
fn push_digits(text: &mut Vec<u8>, number: u64) -> Result<(), NoMemory>
    ensures { OnOk result (text.new.items ≡ text.old.items ++ escaped (decimal number)) }
{
    push_number(text, number)
}

#[tactic(auto, using(crate::proofs::Escaping::escaped_timestamp))]
fn push_moment(text: &mut Vec<u8>, stamp: Stamp) -> Result<(), NoMemory>
    ensures { OnOk result (text.new.items ≡ text.old.items ++ escaped (timestamp stamp)) }
{
    push_timestamp(text, stamp)
}

/// Adds a part of a packet's header. No sign of it is one of the markup's.
fn push_header(text: &mut Vec<u8>, packet: &Packet, part: HeaderPart) -> Result<(), NoMemory>
    ensures { OnOk result (text.new.items ≡ text.old.items ++ escaped (Psml.header_part packet.now part)) }
{
    match part {
        HeaderPart::Num => push_digits(text, packet.number),
        HeaderPart::Timestamp => push_moment(text, packet.stamp),
        HeaderPart::Len => push_digits(text, packet.bytes.as_slice().len() as u64),
    }
}

/// Adds the last field of this name in a protocol of the tree as it is shown, nothing where there is none.
fn push_last_field(
    text: &mut Vec<u8>,
    source: &Source,
    proto: &Proto,
    name: &[u8],
) -> Result<(), NoMemory>
    ensures { OnOk result (text.new.items ≡
        text.old.items ++ escaped (Psml.last_shown source.now.db.now proto.now name.now)) }
{
    let db = source.db.labelled();
    match last_field(db, proto.number, name, proto.nodes.as_slice()) {
        Some(found) => {
            let label = db.field(proto.number, found.field);
            push_field_shown(text, TextForm::Markup, db, label, found.value)
        }
        None => Ok(()),
    }
}

fn push_content(
    text: &mut Vec<u8>,
    source: &Source,
    proto: &Proto,
    content: &Content,
) -> Result<(), NoMemory>
    ensures { OnOk result (text.new.items ≡
        text.old.items ++ escaped (Psml.content_text source.now.db.now source.now.packet.now proto.now content.now)) }
{
    match content {
        Content::Text(value) => push_written(text, TextForm::Markup, value.as_slice()),
        Content::Field(name) => push_last_field(text, source, proto, name.as_slice()),
        Content::Header(part) => push_header(text, source.packet, *part),
    }
}

fn push_contents(
    text: &mut Vec<u8>,
    source: &Source,
    proto: &Proto,
    contents: &[Content],
) -> Result<(), NoMemory>
    ensures { OnOk result (text.new.items ≡ text.old.items
        ++ escaped (flat_map (Psml.content_text source.now.db.now source.now.packet.now proto.now) contents.now)) }
{
    for content in contents {
        push_content(text, source, proto, content)?;
    }
    Ok(())
}

/// Adds what the summary of a protocol of the tree adds to the section of this number.
pub fn push_proto(
    text: &mut Vec<u8>,
    source: &Source,
    section: usize,
    proto: &Proto,
) -> Result<(), NoMemory>
    requires { section < length (sections source.now.db.now) }
    ensures { OnOk result (text.new.items ≡ text.old.items
        ++ escaped (Psml.proto_text source.now.db.now source.now.packet.now section proto.now)) }
{
    let contents = source.db.contents_of(proto.number, section);
    push_contents(text, source, proto, contents)
}
