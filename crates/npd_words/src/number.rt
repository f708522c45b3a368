//! Numbers in words.

ghost use Rattle.std.specs.Prelude.{◌≡◌};
ghost use Rattle.std.specs.Char.{is_ascii_digit};
ghost use Rattle.std.specs.List.{list_all};
ghost use Rattle.npd_words.specs.Numbers;

use crate::Form;

/// The most digits that a number may have.
const MOST_DIGITS: usize = 10;

fn all_digits(text: &[u8]) -> bool
    ensures { result ≡ list_all is_ascii_digit text.now }
{
    text.iter().all(|b| b.is_ascii_digit())
}

fn are_digits(text: &[u8]) -> bool
    ensures { result ≡ Numbers.are_digits text.now }
{
    text.len() > 0 && text.len() <= MOST_DIGITS && all_digits(text)
}

/// The number that a text is.
#[tactic(auto, using(crate::proofs::Digits::parsed_number), unfolding(crate::specs::Numbers::number_of))]
pub fn number_of(text: &str) -> Option<u32>
    ensures { result ≡ Numbers.number_of text.now }
{
    if are_digits(text.as_bytes()) {
        text.parse::<u32>().ok()
    } else {
        None
    }
}

fn is_within(least: u32, most: u32, number: Option<u32>) -> bool
    ensures { result ≡ Numbers.is_within least most number }
{
    match number {
        Some(n) => least <= n && n <= most,
        None => false,
    }
}

/// Whether a text is a value of this form. Each text that isn't empty is a name.
pub fn fits(form: Form, text: &str) -> bool
    ensures { result ≡ Numbers.fits form text.now }
{
    match form {
        Form::Input | Form::Output => true,
        Form::Number { least, most } => is_within(least, most, number_of(text)),
    }
}
