ghost use Rattle.std.specs.Prelude.{◌≡◌, ◌<◌, ◌≤◌, length, IsTrue};
ghost use Rattle.std.specs.List.{list_all};
ghost use Rattle.db_model.specs.Name;

use crate::MOST_NAME;

/// The reserved words of the expression language, which no name may be: the operators and then the functions.
#[derive(Clone, Copy)]
pub enum ReservedWord {
    Or,
    And,
    Not,
    Lt,
    Le,
    Gt,
    Ge,
    Mod,
    BitAnd,
    BitOr,
    ToNumber,
    LengthOf,
    ToBytes,
    HasText,
    IsPresent,
    LookUp,
    RenewingLookUp,
}

impl ReservedWord {
    /// How it is written.
    #[tactic(auto, unfolding(crate::specs::Name::spelling))]
    pub fn spelling(self) -> &'static [u8]
        ensures { result.now ≡ Name.spelling self }
    {
        match self {
            ReservedWord::Or => b"or",
            ReservedWord::And => b"and",
            ReservedWord::Not => b"not",
            ReservedWord::Lt => b"lt",
            ReservedWord::Le => b"le",
            ReservedWord::Gt => b"gt",
            ReservedWord::Ge => b"ge",
            ReservedWord::Mod => b"mod",
            ReservedWord::BitAnd => b"bitwand",
            ReservedWord::BitOr => b"bitwor",
            ReservedWord::ToNumber => b"buf2int",
            ReservedWord::LengthOf => b"buflen",
            ReservedWord::ToBytes => b"int2buf",
            ReservedWord::HasText => b"hasstring",
            ReservedWord::IsPresent => b"ispresent",
            ReservedWord::LookUp => b"checklookuptable",
            ReservedWord::RenewingLookUp => b"checkupdatelookuptable",
        }
    }
}

fn among(words: &[ReservedWord], text: &[u8]) -> Option<ReservedWord>
    ensures { result ≡ Name.among words.now text.now }
{
    for word in words {
        if text == word.spelling() {
            return Some(*word);
        }
    }
    None
}

/// The reserved word that a text is.
#[tactic(auto, unfolding(crate::specs::Name::reserved))]
pub fn reserved(text: &[u8]) -> Option<ReservedWord>
    ensures { result ≡ Name.reserved text.now }
{
    among(
        &[
            ReservedWord::Or,
            ReservedWord::And,
            ReservedWord::Not,
            ReservedWord::Lt,
            ReservedWord::Le,
            ReservedWord::Gt,
            ReservedWord::Ge,
            ReservedWord::Mod,
            ReservedWord::BitAnd,
            ReservedWord::BitOr,
            ReservedWord::ToNumber,
            ReservedWord::LengthOf,
            ReservedWord::ToBytes,
            ReservedWord::HasText,
            ReservedWord::IsPresent,
            ReservedWord::LookUp,
            ReservedWord::RenewingLookUp,
        ],
        text,
    )
}

/// Whether a text is a reserved word.
pub fn is_reserved(text: &[u8]) -> bool
    ensures { result ≡ Name.is_reserved text.now }
{
    match reserved(text) {
        None => false,
        Some(_) => true,
    }
}

/// Whether a name may begin with a byte.
pub fn begins_name(byte: u8) -> bool
    ensures { result ≡ Name.begins_name byte }
{
    byte.is_ascii_alphabetic() || byte == b'_'
}

/// Whether a byte goes on with a name.
pub fn continues_name(byte: u8) -> bool
    ensures { result ≡ Name.continues_name byte }
{
    byte.is_ascii_alphanumeric() || byte == b'_'
}

fn all_continue(bytes: &[u8]) -> bool
    ensures { result ≡ list_all Name.continues_name bytes.now }
{
    bytes.iter().all(|byte| continues_name(*byte))
}

/// Whether a text is a letter or `_`, then letters, digits or `_`, at most 64 bytes in all.
fn is_word(text: &[u8]) -> bool
    ensures value { result ≡ Name.is_word text.now }
    ensures bound { IsTrue result → (0 < length text.now) × (length text.now ≤ MOST_NAME) }
{
    match text.split_first() {
        None => false,
        Some((first, rest)) => begins_name(*first) && all_continue(rest) && rest.len() <= 63,
    }
}

/// Whether a text is a name: such a run, and no reserved word.
#[tactic(auto, unfolding(crate::specs::Name::is_name))]
pub fn is_name(text: &[u8]) -> bool
    ensures value { result ≡ Name.is_name text.now }
    ensures bound { IsTrue result → (0 < length text.now) × (length text.now ≤ MOST_NAME) }
{
    is_word(text) && !is_reserved(text)
}
