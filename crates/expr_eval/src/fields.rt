ghost use Rattle.std.specs.Prelude.{◌≡◌, slice_get, None, Some, MatchOption};
ghost use Rattle.expr_code.specs.Meaning.{last_in, some_in};
ghost use Rattle.expr_eval.specs.Latest.{later};
ghost use Rattle.expr_eval.specs.Operand.{bytes_at};

use db_model::FieldValues;

/// The place of the last of the decoded fields that has one of these numbers.
pub fn last_place(numbers: &[u32], present: &FieldValues) -> Option<usize>
    ensures { MatchOption result (last_in numbers.now present.now None ≡ None)
        (λ at. last_in numbers.now present.now None ≡ Some (bytes_at (slice_get present.now at))) }
{
    let mut latest = None;
    for number in numbers {
        latest = later(latest, present.last(*number));
    }
    latest
}

/// The later one of two places.
fn later(a: Option<usize>, b: Option<usize>) -> Option<usize>
    ensures { result ≡ later a b }
{
    match (a, b) {
        (Some(a), Some(b)) => Some(a.max(b)),
        (None, b) => b,
        (a, None) => a,
    }
}

/// Whether one of the decoded fields has one of these numbers.
pub fn is_present(numbers: &[u32], present: &FieldValues) -> bool
    ensures { result ≡ some_in numbers.now present.now }
{
    for number in numbers {
        if present.is_present(*number) {
            return true;
        }
    }
    false
}
