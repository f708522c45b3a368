ghost use Rattle.std.specs.Prelude.{◌≡◌};

use db_model::NoMemory;
use thiserror::Error;

/// Why a text gave no elements.
#[derive(Debug, Drop, Error)]
pub enum TextFail {
    /// The first fault: its line, from 1, and the code of its cause (`Cause`), one of those of a text.
    #[error("fault {code} at line {line}")]
    Fault { line: u32, code: u8 },
    #[error("out of memory")]
    NoMemory,
}

impl From<NoMemory> for TextFail {
    ghost use Rattle.db_text.specs.declared.fail.TextFail.TheVariants as fail;

    ghost from_gives = { λ lack e. e ≡ fail.NoMemory };

    fn from(_: NoMemory) -> TextFail {
        TextFail::NoMemory
    }
}
