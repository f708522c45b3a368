//! The laws of the loader, each the contract of a function that does nothing.

ghost use Rattle.db_load.specs.Laws.{LoadedShaped, EachHasRow, EachHasRule, EachValueFormed, HasAnswer, OneDatabase, ExcludesFault, OneFault, RefusedByFaults, RefusedByFirst};

use db_text::laws::one_answer;
use expr_text::laws::{parsed_is_text, texts_are_well_formed};

/// A tree of elements without faults means a shaped database.
pub fn loaded_is_shaped()
    ensures { LoadedShaped }
{
    parsed_is_text();
    texts_are_well_formed();
}

/// In a tree without faults each element has a row in the one around it, each attribute has a rule, and each
/// value has its form. So what is put for a value that is missing or hasn't its form is never read.
pub fn elements_are_formed()
    ensures rows { EachHasRow }
    ensures rules { EachHasRule }
    ensures values { EachValueFormed }
{}

/// A tree is refused exactly where it has a fault of shape, with the first of its faults by line and code.
pub fn least_is_answered()
    ensures where_any { RefusedByFaults }
    ensures first { RefusedByFirst }
{}

/// Each text has exactly one answer: it is that of a database, or has a fault with a line and a code; it is that
/// of at most one database, then it has no fault, and one that has a fault has one line and one code.
pub fn each_text_has_one_answer()
    ensures some { HasAnswer }
    ensures databases { OneDatabase }
    ensures faults { ExcludesFault }
    ensures lines { OneFault }
{
    one_answer();
}
