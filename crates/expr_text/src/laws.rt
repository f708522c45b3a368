//! The laws of the answers and of the canonical texts, each the contract of a function that does nothing.

ghost use Rattle.std.specs.Prelude.{◌≡◌};
ghost use Rattle.expr_text.specs.declared.limits.TheConstants.{MOST_EXPRESSION_BYTES};
ghost use Rattle.expr_text.specs.Laws.{OneExpression, OneText, ExcludesRefusal, OneRefusal, HasAnswer, ParsedIsText, IsWellFormed};
ghost use Rattle.expr_text.specs.Printing.{ReadsBack, ReadsBackSpelled, PrintsApart, PrintsTexts, RefusesLong};

/// Each answer excludes every other: tokens spell at most one expression, a text is that of at most one, a text
/// that is an expression's is not refused, and one that is refused is refused at one place with one code.
pub fn answers_exclude()
    ensures tokens { OneExpression }
    ensures texts { OneText }
    ensures refused { ExcludesRefusal }
    ensures faults { OneRefusal }
{}

/// Every text has an answer: it is that of an expression, or is refused.
pub fn every_text_is_answered()
    ensures { HasAnswer }
{}

/// `parsed` of the definitions gives an expression exactly where the text is that of the expression.
pub fn parsed_is_text()
    ensures { ParsedIsText }
{}

/// The expression of a text is well formed, as a database asks of each of its expressions.
pub fn texts_are_well_formed()
    ensures { IsWellFormed }
{}

/// The canonical text of a well-formed expression spells that expression, and no other has the same. Where it
/// is not too long, reading it gives that expression; a longer one is refused at its front.
pub fn printed_reads_back()
    ensures back { ReadsBack }
    ensures spelled { ReadsBackSpelled }
    ensures apart { PrintsApart }
    ensures texts { PrintsTexts }
    ensures long { RefusesLong }
{}

/// The most bytes of an expression's text, as a number.
pub fn limits()
    ensures { MOST_EXPRESSION_BYTES ≡ 1024 }
{}
