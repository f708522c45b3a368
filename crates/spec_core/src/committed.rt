ghost use Rattle.std.specs.Prelude.{◌≡◌};
ghost use Rattle.spec_core.specs.Commits.{committed_by};

use engine::Outcome;

/// What a call of `commit_next` did.
#[derive(Clone, Copy, PartialEq, Eq)]
pub enum Committed {
    /// The next packet is settled as it was delivered.
    Kept,
    /// The next packet was decoded again.
    Again,
    /// The next packet isn't delivered.
    NotYet,
    /// All packets of the window are committed.
    Finished,
}

impl Committed {
    /// What a commit with this outcome answers.
    pub fn by(outcome: &Outcome) -> Committed
        ensures { result ≡ committed_by outcome.now }
    {
        match outcome {
            Outcome::Kept => Committed::Kept,
            Outcome::Again { .. } | Outcome::Direct(_) => Committed::Again,
        }
    }
}
