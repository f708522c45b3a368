ghost use Rattle.std.specs.Prelude.{◌≡◌, ◌++◌, None, OnOk, codes, decimal, map};
ghost use Rattle.std.specs.Option.{option_copied};
ghost use Rattle.hex.specs.Hex.{encode_lower};
ghost use Rattle.pdml_out.specs.Pdml;
ghost use Rattle.show.specs.Markup.{escaped};
ghost use Rattle.show.specs.Naming.{begun, named};
ghost use Rattle.show.specs.Shown;

use db_model::{NoMemory, Reason};
use show::{
    BlockLabel, FieldLabel, Labelled, TextForm, push, push_characters, push_hex,
    push_hex_and_shown, push_number,
};

/// Adds the beginning of the line of a field, that of one without a name where it isn't declared. The same for blocks.
#[tactic(auto, unfolding(show::specs::Naming::begun, show::specs::Naming::named))]
fn push_field_beginning(text: &mut Vec<u8>, label: Option<&FieldLabel>) -> Result<(), NoMemory>
    ensures { OnOk result (text.new.items ≡
        text.old.items ++ Pdml.field_begun (option_copied label.entry)) }
{
    match label {
        Some(label) => push(text, label.begun()),
        None => push(text, b"<field name=\"\" pos=\""),
    }
}

#[tactic(auto, unfolding(show::specs::Naming::begun, show::specs::Naming::named))]
fn push_block_beginning(text: &mut Vec<u8>, label: Option<&BlockLabel>) -> Result<(), NoMemory>
    ensures { OnOk result (text.new.items ≡
        text.old.items ++ Pdml.block_begun (option_copied label.entry)) }
{
    match label {
        Some(label) => push(text, label.begun()),
        None => push(text, b"<block name=\"\" pos=\""),
    }
}

/// Adds a position and a size to a line that has begun, and what stands behind them.
#[tactic(auto, unfolding(crate::specs::Pdml::numbers))]
fn push_numbers(text: &mut Vec<u8>, pos: u32, size: u32, behind: &[u8]) -> Result<(), NoMemory>
    ensures { OnOk result (text.new.items ≡ text.old.items ++ Pdml.numbers pos size behind.now) }
{
    push_number(text, u64::from(pos))?;
    push(text, b"\" size=\"")?;
    push_number(text, u64::from(size))?;
    push(text, behind)
}

/// Adds a field of a declared protocol.
pub fn push_field(
    text: &mut Vec<u8>,
    db: &Labelled,
    label: Option<&FieldLabel>,
    pos: u32,
    size: u32,
    value: &[u8],
) -> Result<(), NoMemory>
    ensures { OnOk result (text.new.items ≡
        text.old.items ++ Pdml.field_text db.now (option_copied label.entry) pos size value.now) }
{
    push_field_beginning(text, label)?;
    push_numbers(text, pos, size, b"\" value=\"")?;
    push_hex_and_shown(text, b"\" show=\"", db.template_of(label), value)?;
    push(text, b"\"/>\n")
}

/// Adds the beginning of the field of the payload.
#[tactic(auto, unfolding(show::specs::Naming::begun, show::specs::Naming::named))]
fn push_payload_beginning(text: &mut Vec<u8>) -> Result<(), NoMemory>
    ensures { OnOk result (text.new.items ≡
        text.old.items ++ begun (codes "<field") (codes "data") None) }
{
    push(text, b"<field name=\"data\" pos=\"")
}

/// Adds a value of the payload, in hex and as characters.
fn push_hex_and_characters(text: &mut Vec<u8>, value: &[u8]) -> Result<(), NoMemory>
    ensures { OnOk result (text.new.items ≡ text.old.items
        ++ (encode_lower value.now ++ (codes "\" show=\"" ++ escaped (map Shown.character value.now)))) }
{
    push_hex(text, value)?;
    push(text, b"\" show=\"")?;
    push_characters(text, TextForm::Markup, value)
}

/// Adds the field of the payload.
pub fn push_payload_field(
    text: &mut Vec<u8>,
    pos: u32,
    size: u32,
    value: &[u8],
) -> Result<(), NoMemory>
    ensures { OnOk result (text.new.items ≡
        text.old.items ++ Pdml.field_line (named (codes "data") None) pos size value.now (map Shown.character value.now)) }
{
    push_payload_beginning(text)?;
    push_numbers(text, pos, size, b"\" value=\"")?;
    push_hex_and_characters(text, value)?;
    push(text, b"\"/>\n")
}

/// Adds the line that opens a block.
pub fn push_block_line(
    text: &mut Vec<u8>,
    label: Option<&BlockLabel>,
    pos: u32,
    size: u32,
) -> Result<(), NoMemory>
    ensures { OnOk result (text.new.items ≡
        text.old.items ++ Pdml.block_line (Pdml.block_named (option_copied label.entry)) pos size) }
{
    push_block_beginning(text, label)?;
    push_numbers(text, pos, size, b"\">\n")
}

/// Adds the line that opens a protocol, from how it begins.
pub fn push_protocol_line(
    text: &mut Vec<u8>,
    beginning: &[u8],
    pos: u32,
    size: u32,
) -> Result<(), NoMemory>
    ensures { OnOk result (text.new.items ≡
        text.old.items ++ (beginning.now ++ Pdml.numbers pos size (codes "\">\n"))) }
{
    push(text, beginning)?;
    push_numbers(text, pos, size, b"\">\n")
}

/// Adds the line that opens the payload.
#[tactic(auto, unfolding(show::specs::Naming::begun, show::specs::Naming::named))]
pub fn push_payload_line(text: &mut Vec<u8>, pos: u32, size: u32) -> Result<(), NoMemory>
    ensures { OnOk result (text.new.items ≡
        text.old.items ++ (begun (codes "<proto") (codes "payload") None ++ Pdml.numbers pos size (codes "\">\n"))) }
{
    push_protocol_line(text, b"<proto name=\"payload\" pos=\"", pos, size)
}

/// Adds a note.
#[tactic(auto, unfolding(crate::specs::Pdml::note_line))]
pub fn push_note(text: &mut Vec<u8>, reason: Reason, pos: u32) -> Result<(), NoMemory>
    ensures { OnOk result (text.new.items ≡ text.old.items ++ Pdml.note_line reason pos) }
{
    push(text, b"<note reason=\"")?;
    push(text, reason.word().as_bytes())?;
    push(text, b"\" pos=\"")?;
    push_number(text, u64::from(pos))?;
    push(text, b"\"/>\n")
}
