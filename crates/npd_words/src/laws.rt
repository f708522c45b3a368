//! The law of the codes, the contract of a function that does nothing.

ghost use Rattle.npd_words.specs.Codes.{CodesTellCauses};

/// Causes with one code are one cause.
#[tactic(auto, using(crate::proofs::Told::told))]
pub fn codes_tell_causes()
    ensures { CodesTellCauses }
{}
