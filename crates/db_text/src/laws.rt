//! The laws of the answers, and texts written out, each the contract of a function that does nothing.

ghost use Rattle.std.specs.Prelude.{◌≡◌};
ghost use Rattle.db_text.specs.declared.limits.TheConstants.{MOST_TEXT_BYTES, MOST_ELEMENT_DEPTH};
ghost use Rattle.db_text.specs.Examples.{EmptyElements, Lines, Values, Unsaid, Early, Stuck};
ghost use Rattle.db_text.specs.Laws.{HasAnswer, OneElement, ExcludesRefusal, OneRefusal};

/// Each text has exactly one answer: it is that of an element, or it is refused with a line and a code; it is that
/// of at most one element, then it is not refused, and one that is refused has one line and one code.
pub fn one_answer()
    ensures some { HasAnswer }
    ensures elements { OneElement }
    ensures refused { ExcludesRefusal }
    ensures faults { OneRefusal }
{}

/// Texts written out, and what they are: read as elements, or refused with a line and a code.
pub fn worked_texts()
    ensures empty { EmptyElements }
    ensures lines { Lines }
    ensures values { Values }
    ensures unsaid { Unsaid }
    ensures early { Early }
    ensures stuck { Stuck }
{}

/// Each limit, as a number.
pub fn limits()
    ensures bytes { MOST_TEXT_BYTES ≡ 1048576 }
    ensures depth { MOST_ELEMENT_DEPTH ≡ 64 }
{}
