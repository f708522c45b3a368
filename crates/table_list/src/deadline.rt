ghost use Rattle.std.specs.Prelude.{◌≡◌, ◌<◌};
ghost use Rattle.db_model.specs.Table.{live, after_seconds, first_deadline};

use db_model::{Entry, SECOND, STAMP_END, Stamp, Validity};

/// Whether an entry lives at a moment, whatever moments came before.
pub fn is_live(entry: &Entry, t: Stamp) -> bool
    ensures { result ≡ live entry.now t }
{
    match entry.deadline {
        Some(deadline) => t < deadline,
        None => true,
    }
}

/// The moment so many seconds later.
pub fn after_seconds(t: Stamp, seconds: u32) -> Stamp
    requires { t < STAMP_END }
    ensures { result ≡ after_seconds t seconds }
{
    t + u64::from(seconds) * SECOND
}

/// The deadline of an entry that is added at a moment.
pub fn first_deadline(validity: Validity, keep: u32, t: Stamp) -> Option<Stamp>
    requires { t < STAMP_END }
    ensures { result ≡ first_deadline validity keep t }
{
    match validity {
        Validity::Forever | Validity::AddOnHit => None,
        Validity::MaxTime | Validity::UpdateOnHit => Some(after_seconds(t, keep)),
    }
}
