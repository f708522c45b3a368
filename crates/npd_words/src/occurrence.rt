//! An option as it is written in the words.

ghost use Rattle.std.specs.Prelude.{◌≡◌, map, option_map, string_bytes};
ghost use Rattle.npd_words.specs.Occurrences;

/// An option as it is written.
#[derive(Clone, Copy)]
pub struct Occurrence<'a> {
    pub name: &'a str,
    /// Where one follows.
    pub value: Option<&'a str>,
    /// Whether the next word is the value.
    pub takes_next: bool,
}

/// A word cut at its first `=`: what stands before it, or the whole word, and what stands behind it.
#[tactic(auto, unfolding(crate::specs::Occurrences::name_in, crate::specs::Occurrences::value_in))]
fn cut(word: &str) -> (&str, Option<&str>)
    ensures name { result.0.now ≡ Occurrences.name_in word.now }
    ensures value { option_map (λ v. v.now) result.1 ≡ Occurrences.value_in word.now }
{
    match word.split_once('=') {
        Some((name, value)) => (name, Some(value)),
        None => (word, None),
    }
}

/// Whether a word may be the value of the option before it: it doesn't begin with `-`, or is `-` alone.
fn may_be_value(word: &[u8]) -> bool
    ensures { result ≡ Occurrences.may_be_value word.now }
{
    match word {
        [b'-', _, ..] => false,
        _ => true,
    }
}

/// The first of the words, where it may be a value.
fn next_value(words: &[String]) -> Option<&str>
    ensures { option_map (λ v. v.now) result ≡ Occurrences.next_value (map string_bytes words.now) }
{
    match words.split_first() {
        Some((word, _)) if may_be_value(word.as_str().as_bytes()) => Some(word.as_str()),
        _ => None,
    }
}

/// The option that a word is, where those others stand behind it.
pub fn read_occurrence<'a>(word: &'a str, behind: &'a [String]) -> Occurrence<'a>
    ensures name { result.name.now ≡ Occurrences.name_in word.now }
    ensures value { option_map (λ v. v.now) result.value
        ≡ Occurrences.value_by (Occurrences.value_in word.now) (map string_bytes behind.now) }
    ensures taken { result.takes_next
        ≡ Occurrences.takes_next (Occurrences.value_in word.now) (map string_bytes behind.now) }
{
    let (name, own) = cut(word);
    match own {
        Some(_) => Occurrence {
            name,
            value: own,
            takes_next: false,
        },
        None => {
            let next = next_value(behind);
            Occurrence {
                name,
                value: next,
                takes_next: next.is_some(),
            }
        }
    }
}
