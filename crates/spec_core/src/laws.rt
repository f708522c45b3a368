//! The laws of what the core hands out, each the contract of a function that does nothing.

ghost use Rattle.spec_core.specs.Laws.{CommitsLater, DrainedTexts, LegalReceipts, WindowsJoin};

/// Windows that follow one another are one window, of all their packets.
pub fn windows_join()
    ensures { WindowsJoin }
{}

/// The texts of what is drained are those of decoding the packets one by one.
pub fn drained_texts()
    ensures { DrainedTexts }
{}

/// The receipts of what is drained are legal.
pub fn legal_receipts()
    ensures { LegalReceipts }
{}

/// What any number of commits leave as it was.
pub fn commits_later()
    ensures { CommitsLater }
{}
