//! The laws of receipts and of packets that are settled, each the contract of a function that does nothing.

ghost use Rattle.engine.specs.Laws.{DirectLine, InParts, SettledTexts};

/// The line of a packet that was decoded without workers.
pub fn direct_line()
    ensures { DirectLine }
{}

/// The texts of packets that were settled are those of decoding them one after another.
pub fn settled_texts()
    ensures { SettledTexts }
{}

/// More packets are decoded and settled from the session that the first ones left.
pub fn settled_in_parts()
    ensures { InParts }
{}
