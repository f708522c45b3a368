ghost use Rattle.std.specs.Prelude.{◌≡◌};
ghost use Rattle.npd_words.specs.Codes.{code};
ghost use Rattle.npd_words.specs.declared.fail.WordsFail.TheVariants as fail;

use crate::Cause;
use db_model::NoMemory;
use std::alloc::{AllocError, AllocFailed};
use thiserror::Error;

/// Why words ask for no plan.
#[derive(Debug, Drop, Error)]
pub enum WordsFail {
    /// The first fault: the index of its word, from 0, and the code of its cause (`Cause`).
    #[error("fault {code} at word {index}")]
    Fault { index: u32, code: u8 },
    #[error("out of memory")]
    NoMemory,
}

/// The fault of a cause at the word of an index.
pub fn fault(index: u32, cause: Cause) -> WordsFail
    ensures { result ≡ fail.Fault index (code cause) }
{
    WordsFail::Fault {
        index,
        code: cause.code(),
    }
}

impl From<NoMemory> for WordsFail {
    ghost use Rattle.std.specs.Prelude.{◌≡◌};
    ghost use Rattle.npd_words.specs.declared.fail.WordsFail.TheVariants as fail;

    ghost from_gives = { λ _ e. e ≡ fail.NoMemory };

    fn from(_: NoMemory) -> WordsFail {
        WordsFail::NoMemory
    }
}

impl From<AllocError> for WordsFail {
    ghost use Rattle.std.specs.Prelude.{◌≡◌};
    ghost use Rattle.npd_words.specs.declared.fail.WordsFail.TheVariants as fail;

    ghost from_gives = { λ _ e. e ≡ fail.NoMemory };

    fn from(_: AllocError) -> WordsFail {
        WordsFail::NoMemory
    }
}

impl<T: Drop> From<AllocFailed<T>> for WordsFail {
    ghost use Rattle.std.specs.Prelude.{◌≡◌};
    ghost use Rattle.npd_words.specs.declared.fail.WordsFail.TheVariants as fail;

    ghost from_gives = { λ _ e. e ≡ fail.NoMemory };

    fn from(_: AllocFailed<T>) -> WordsFail {
        WordsFail::NoMemory
    }
}
