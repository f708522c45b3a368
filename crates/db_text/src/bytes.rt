ghost use Rattle.std.specs.Prelude.{◌≡◌};
ghost use Rattle.db_text.specs.Text;
ghost use Rattle.db_text.specs.Machine;

use crate::mode::{Entity, Fixed};

/// Tab, LF, CR and the space.
pub fn is_space(byte: u8) -> bool
    ensures { result ≡ Text.is_space byte }
{
    byte == b'\t' || byte == b'\n' || byte == b'\r' || byte == b' '
}

pub fn is_letter(byte: u8) -> bool
    ensures { result ≡ Text.is_letter byte }
{
    byte.is_ascii_alphabetic()
}

/// Whether a byte goes on with a name.
pub fn is_name_byte(byte: u8) -> bool
    ensures { result ≡ Text.is_name_byte byte }
{
    byte.is_ascii_alphanumeric() || byte == b'-'
}

/// Whether a byte may stand in the declaration.
pub fn is_declared(byte: u8) -> bool
    ensures { result ≡ Text.is_declared byte }
{
    !(byte == b'?' || byte == b'<' || byte == b'>')
}

/// Whether a byte stands for itself in a value in these quotes.
pub fn is_char(quote: u8, byte: u8) -> bool
    ensures { result ≡ Text.is_char quote byte }
{
    (byte == b'\t' || byte == b'\n' || byte == b'\r' || (0x20 <= byte && byte <= 0x7E))
        && !(byte == b'<' || byte == b'&' || byte == quote)
}

/// A tab and a line end count as a space.
pub fn as_space(byte: u8) -> u8
    ensures { result ≡ Text.as_space byte }
{
    if is_space(byte) { b' ' } else { byte }
}

fn entity_text(entity: Entity) -> &'static [u8]
    ensures { result.now ≡ Text.entity_text entity }
{
    match entity {
        Entity::Less => b"&lt;".as_slice(),
        Entity::Greater => b"&gt;".as_slice(),
        Entity::Ampersand => b"&amp;".as_slice(),
        Entity::Quote => b"&quot;".as_slice(),
        Entity::Apostrophe => b"&apos;".as_slice(),
    }
}

/// What an entity stands for.
pub fn character(entity: Entity) -> u8
    ensures { result ≡ Text.character entity }
{
    match entity {
        Entity::Less => b'<',
        Entity::Greater => b'>',
        Entity::Ampersand => b'&',
        Entity::Quote => b'"',
        Entity::Apostrophe => b'\'',
    }
}

pub fn fixed_text(word: Fixed) -> &'static [u8]
    ensures { result.now ≡ Machine.fixed_text word }
{
    match word {
        Fixed::Mark => b"\xEF\xBB\xBF".as_slice(),
        Fixed::Declaration => b"<?xml".as_slice(),
        Fixed::Comment => b"<!--".as_slice(),
        Fixed::Entity { entity, .. } => entity_text(entity),
    }
}
