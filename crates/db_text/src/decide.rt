ghost use Rattle.std.specs.Prelude.{◌≡◌, slice_get};
ghost use Rattle.db_text.specs.Machine;

use crate::bytes::{character, fixed_text, is_declared, is_letter, is_space};
use crate::mode::{Act, Fixed, Mode, Move, Place};
use crate::notes::Notes;
use crate::tag::{
    after_equals, ampersand, ampersand_a, before_equals, in_attribute_name, in_name, in_tag,
    in_value, slash, tag,
};

/// Does something and goes to a mode.
pub fn doing(act: Act, mode: Mode) -> Option<Move>
    ensures { result ≡ Machine.doing act mode }
{
    Some(Move { mode, act })
}

/// Goes to a mode.
pub fn go(mode: Mode) -> Option<Move>
    ensures { result ≡ Machine.go mode }
{
    doing(Act::Nothing, mode)
}

/// A mode where a test holds.
pub fn go_if(test: bool, mode: Mode) -> Option<Move>
    ensures { result ≡ Machine.when test (Machine.go mode) }
{
    if test { go(mode) } else { None }
}

fn front(line: u32, byte: u8) -> Option<Move>
    ensures { result ≡ Machine.front line byte }
{
    if is_space(byte) {
        return go(Mode::Between);
    }
    go_if(byte == b'<', Mode::Less { line, first: true })
}

fn begin(line: u32, byte: u8) -> Option<Move>
    ensures { result ≡ Machine.begin line byte }
{
    if is_space(byte) {
        return go(Mode::Between);
    }
    if byte == b'<' {
        return go(Mode::Less { line, first: true });
    }
    go_if(
        byte == 0xEF,
        Mode::Fixed {
            word: Fixed::Mark,
            read: 1,
        },
    )
}

fn between(line: u32, byte: u8) -> Option<Move>
    ensures { result ≡ Machine.between line byte }
{
    if is_space(byte) {
        return go(Mode::Between);
    }
    go_if(byte == b'<', Mode::Less { line, first: false })
}

fn opens(line: u32, place: Place, byte: u8) -> Option<Move>
    ensures { result ≡ Machine.opens line place byte }
{
    match place {
        Place::Before | Place::Inside => doing(Act::Opens { line, byte }, Mode::Name),
        Place::After => None,
    }
}

fn closes(place: Place) -> Option<Move>
    ensures { result ≡ Machine.closes place }
{
    match place {
        Place::Inside => go(Mode::Closing { read: 0 }),
        Place::Before | Place::After => None,
    }
}

fn not_letter(line: u32, first: bool, place: Place, byte: u8) -> Option<Move>
    ensures { result ≡ Machine.not_letter line first place byte }
{
    if byte == b'!' {
        return go(Mode::Fixed {
            word: Fixed::Comment,
            read: 2,
        });
    }
    if byte == b'/' {
        return closes(place);
    }
    go_if(
        byte == b'?' && first,
        Mode::Fixed {
            word: Fixed::Declaration,
            read: 2,
        },
    )
}

/// Behind a `<` on a line.
fn less(line: u32, first: bool, place: Place, byte: u8) -> Option<Move>
    ensures { result ≡ Machine.less line first place byte }
{
    if is_letter(byte) {
        opens(line, place, byte)
    } else {
        not_letter(line, first, place, byte)
    }
}

fn behind(word: Fixed) -> Option<Move>
    ensures { result ≡ Machine.behind word }
{
    match word {
        Fixed::Mark => go(Mode::Marked),
        Fixed::Declaration => go(Mode::Declaration),
        Fixed::Comment => go(Mode::Comment { hyphens: 0 }),
        Fixed::Entity { quote, entity } => doing(
            Act::AddsToValue {
                byte: character(entity),
            },
            Mode::Value { quote },
        ),
    }
}

/// The next one of fixed bytes.
fn fixed(word: Fixed, read: usize, byte: u8) -> Option<Move>
    ensures { result ≡ Machine.fixed_next word read byte (slice_get (Machine.fixed_text word) read) }
{
    let text = fixed_text(word);
    match text.get(read) {
        None => None,
        Some(next) => {
            if byte != *next {
                return None;
            }
            if read + 1 == text.len() {
                behind(word)
            } else {
                go(Mode::Fixed {
                    word,
                    read: read + 1,
                })
            }
        }
    }
}

fn in_declaration(byte: u8) -> Option<Move>
    ensures { result ≡ Machine.in_declaration byte }
{
    if is_declared(byte) {
        return go(Mode::Declaration);
    }
    go_if(byte == b'?', Mode::DeclarationEnds)
}

fn in_comment(hyphens: u8, byte: u8) -> Option<Move>
    ensures { result ≡ Machine.in_comment hyphens byte }
{
    if byte == b'-' {
        return if hyphens <= 2 {
            go(Mode::Comment {
                hyphens: hyphens + 1,
            })
        } else {
            None
        };
    }
    if 2 <= hyphens {
        go_if(byte == b'>', Mode::Between)
    } else {
        go(Mode::Comment { hyphens: 0 })
    }
}

/// Behind the name that closes an element.
fn ending(byte: u8) -> Option<Move>
    ensures { result ≡ Machine.ending byte }
{
    if is_space(byte) {
        return go(Mode::Closed);
    }
    slash(byte)
}

/// The next byte of the name that closes an element.
fn closing(name: &[u8], read: usize, byte: u8) -> Option<Move>
    ensures { result ≡ Machine.closing_next read byte (slice_get name.now read) }
{
    match name.get(read) {
        None => ending(byte),
        Some(next) => go_if(byte == *next, Mode::Closing { read: read + 1 }),
    }
}

/// What a byte on a line does, and the mode behind it; none where no text goes on with it.
pub fn decide(mode: Mode, notes: &Notes, line: u32, byte: u8) -> Option<Move>
    ensures { result ≡ Machine.decide mode notes.now line byte }
{
    match mode {
        Mode::Start => begin(line, byte),
        Mode::Marked => front(line, byte),
        Mode::Less { line, first } => less(line, first, notes.place(), byte),
        Mode::Fixed { word, read } => fixed(word, read, byte),
        Mode::Declaration => in_declaration(byte),
        Mode::DeclarationEnds => go_if(byte == b'>', Mode::Between),
        Mode::Between => between(line, byte),
        Mode::Comment { hyphens } => in_comment(hyphens, byte),
        Mode::Name => in_name(byte),
        Mode::Tag => in_tag(byte),
        Mode::AttributeName => in_attribute_name(byte),
        Mode::BeforeEquals => before_equals(byte),
        Mode::AfterEquals => after_equals(byte),
        Mode::Value { quote } => in_value(quote, byte),
        Mode::Ampersand { quote } => ampersand(quote, byte),
        Mode::AmpersandA { quote } => ampersand_a(quote, byte),
        Mode::BehindValue => tag(byte),
        Mode::Slash => slash(byte),
        Mode::Closing { read } => closing(notes.names.top(), read, byte),
        Mode::Closed => ending(byte),
    }
}
