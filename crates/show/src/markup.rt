ghost use Rattle.std.specs.Prelude.{◌≡◌, ◌++◌, ◌∷◌, [], IsTrue, OnOk, codes, false};
ghost use Rattle.show.specs.Markup;

use crate::text::push;
use db_model::NoMemory;

/// How a text is written.
#[derive(Clone, Copy)]
pub enum TextForm {
    /// As it is.
    Plain,
    /// As a value of the markup: `&`, `<`, `>` and `"` by their names.
    Markup,
}

/// Adds a byte of a value of the markup.
#[tactic(auto, unfolding(crate::specs::Markup::entity))]
fn push_entity(text: &mut Vec<u8>, byte: u8) -> Result<(), NoMemory>
    ensures { OnOk result (text.new.items ≡ text.old.items ++ Markup.entity byte) }
{
    match byte {
        b'&' => push(text, b"&amp;"),
        b'<' => push(text, b"&lt;"),
        b'>' => push(text, b"&gt;"),
        b'"' => push(text, b"&quot;"),
        _ => push_one(text, byte),
    }
}

fn push_one(text: &mut Vec<u8>, byte: u8) -> Result<(), NoMemory>
    ensures { OnOk result (text.new.items ≡ text.old.items ++ byte ∷ []) }
{
    text.push(byte)?;
    Ok(())
}

/// Whether a byte is a sign of the markup.
#[tactic(auto, unfolding(crate::specs::Markup::entity))]
pub fn is_sign(byte: u8) -> bool
    ensures { result ≡ false → Markup.entity byte ≡ byte ∷ [] }
{
    matches!(byte, b'&' | b'<' | b'>' | b'"')
}

/// Whether no byte is a sign of the markup.
fn is_plain(bytes: &[u8]) -> bool
    ensures { IsTrue result → Markup.escaped bytes.now ≡ bytes.now }
{
    for byte in bytes {
        if is_sign(*byte) {
            return false;
        }
    }
    true
}

/// Most texts have no sign of the markup, and then are added as a whole.
fn push_escaped(text: &mut Vec<u8>, bytes: &[u8]) -> Result<(), NoMemory>
    ensures { OnOk result (text.new.items ≡ text.old.items ++ Markup.escaped bytes.now) }
{
    if is_plain(bytes) {
        push(text, bytes)
    } else {
        push_each(text, bytes)
    }
}

fn push_each(text: &mut Vec<u8>, bytes: &[u8]) -> Result<(), NoMemory>
    ensures { OnOk result (text.new.items ≡ text.old.items ++ Markup.escaped bytes.now) }
{
    for byte in bytes {
        push_entity(text, *byte)?;
    }
    Ok(())
}

/// Adds a byte in a form.
pub fn push_byte(text: &mut Vec<u8>, form: TextForm, byte: u8) -> Result<(), NoMemory>
    ensures { OnOk result (text.new.items ≡ text.old.items ++ Markup.written form (byte ∷ [])) }
{
    match form {
        TextForm::Plain => push_one(text, byte),
        TextForm::Markup => push_entity(text, byte),
    }
}

/// Adds a text in a form.
pub fn push_written(text: &mut Vec<u8>, form: TextForm, bytes: &[u8]) -> Result<(), NoMemory>
    ensures { OnOk result (text.new.items ≡ text.old.items ++ Markup.written form bytes.now) }
{
    match form {
        TextForm::Plain => push(text, bytes),
        TextForm::Markup => push_escaped(text, bytes),
    }
}
