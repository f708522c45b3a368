//! Values that are one of a few words.

ghost use Rattle.std.specs.Prelude.{◌≡◌, drop};
ghost use Rattle.db_load.specs.Forms;

use crate::Word;

pub const VALUE_TYPES: [Word; 3] = [Word::Num, Word::Buf, Word::Proto];

pub const VARIABLE_VALIDITIES: [Word; 1] = [Word::Packet];

pub const SHOW_TYPES: [Word; 3] = [Word::Hex, Word::Dec, Word::Ascii];

pub const HEADER_PARTS: [Word; 3] = [Word::Num, Word::Timestamp, Word::Len];

pub const FIELD_TYPES: [Word; 6] = [
    Word::Fixed,
    Word::Bit,
    Word::Variable,
    Word::TokenEnded,
    Word::Line,
    Word::Padding,
];

pub const LOOP_TYPES: [Word; 3] = [Word::Size, Word::Count, Word::While];

pub const LOOP_CONTROLS: [Word; 2] = [Word::Break, Word::Continue];

pub const UPDATE_ACTIONS: [Word; 1] = [Word::Add];

pub const ENTRY_VALIDITIES: [Word; 4] = [
    Word::KeepForever,
    Word::KeepMaxTime,
    Word::UpdateOnHit,
    Word::AddOnHit,
];

/// Whether a value is one of the words.
pub fn is_choice(value: &[u8], words: &[Word]) -> bool
    ensures { result ≡ Forms.is_choice value.now words.now }
{
    for word in words {
        if value == word.spelled() {
            return true;
        }
    }
    false
}
