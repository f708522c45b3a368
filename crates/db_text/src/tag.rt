ghost use Rattle.std.specs.Prelude.{◌≡◌};
ghost use Rattle.db_text.specs.Machine;

use crate::bytes::{as_space, is_char, is_letter, is_name_byte, is_space};
use crate::decide::{doing, go, go_if};
use crate::mode::{Act, Entity, Fixed, Mode, Move};

/// Behind a name or a value in a tag.
pub fn tag(byte: u8) -> Option<Move>
    ensures { result ≡ Machine.tag byte }
{
    if is_space(byte) {
        return go(Mode::Tag);
    }
    if byte == b'/' {
        return go(Mode::Slash);
    }
    go_if(byte == b'>', Mode::Between)
}

pub fn in_name(byte: u8) -> Option<Move>
    ensures { result ≡ Machine.in_name byte }
{
    if is_name_byte(byte) {
        doing(Act::AddsToName { byte }, Mode::Name)
    } else {
        tag(byte)
    }
}

pub fn in_tag(byte: u8) -> Option<Move>
    ensures { result ≡ Machine.in_tag byte }
{
    if is_letter(byte) {
        doing(Act::AddsToWord { byte }, Mode::AttributeName)
    } else {
        tag(byte)
    }
}

pub fn before_equals(byte: u8) -> Option<Move>
    ensures { result ≡ Machine.before_equals byte }
{
    if is_space(byte) {
        return go(Mode::BeforeEquals);
    }
    go_if(byte == b'=', Mode::AfterEquals)
}

pub fn in_attribute_name(byte: u8) -> Option<Move>
    ensures { result ≡ Machine.in_attribute_name byte }
{
    if is_name_byte(byte) {
        doing(Act::AddsToWord { byte }, Mode::AttributeName)
    } else {
        before_equals(byte)
    }
}

pub fn after_equals(byte: u8) -> Option<Move>
    ensures { result ≡ Machine.after_equals byte }
{
    if is_space(byte) {
        return go(Mode::AfterEquals);
    }
    if byte == b'"' {
        return go(Mode::Value { quote: b'"' });
    }
    go_if(byte == b'\'', Mode::Value { quote: b'\'' })
}

pub fn in_value(quote: u8, byte: u8) -> Option<Move>
    ensures { result ≡ Machine.in_value quote byte }
{
    if is_char(quote, byte) {
        return doing(
            Act::AddsToValue {
                byte: as_space(byte),
            },
            Mode::Value { quote },
        );
    }
    if byte == b'&' {
        return go(Mode::Ampersand { quote });
    }
    if byte == quote {
        doing(Act::EndsAttribute, Mode::BehindValue)
    } else {
        None
    }
}

/// So many bytes of an entity were read.
fn entity(quote: u8, entity: Entity, read: usize) -> Mode
    ensures { result ≡ Machine.in_entity quote entity read }
{
    let word = Fixed::Entity { quote, entity };
    Mode::Fixed { word, read }
}

pub fn ampersand(quote: u8, byte: u8) -> Option<Move>
    ensures { result ≡ Machine.ampersand quote byte }
{
    if byte == b'l' {
        return go(entity(quote, Entity::Less, 2));
    }
    if byte == b'g' {
        return go(entity(quote, Entity::Greater, 2));
    }
    if byte == b'q' {
        return go(entity(quote, Entity::Quote, 2));
    }
    go_if(byte == b'a', Mode::AmpersandA { quote })
}

pub fn ampersand_a(quote: u8, byte: u8) -> Option<Move>
    ensures { result ≡ Machine.ampersand_a quote byte }
{
    if byte == b'm' {
        return go(entity(quote, Entity::Ampersand, 3));
    }
    go_if(byte == b'p', entity(quote, Entity::Apostrophe, 3))
}

/// A `>` that ends an element.
pub fn slash(byte: u8) -> Option<Move>
    ensures { result ≡ Machine.slash byte }
{
    if byte == b'>' {
        doing(Act::Closes, Mode::Between)
    } else {
        None
    }
}
