ghost use Rattle.std.specs.Prelude.{◌≡◌};
ghost use Rattle.expr_eval.specs.declared.end.EvalEnd.TheVariants.{NoMemory as Refused};

use db_model::{NoMemory, Reason};
use std::alloc::{AllocError, AllocFailed};
use thiserror::Error;

/// Why an evaluation gave no value.
#[derive(Clone, Copy, Debug, PartialEq, Eq, Error)]
pub enum EvalEnd {
    /// The expression has no value, for this reason.
    #[error("the expression has no value: {}", .0.word())]
    Fault(Reason),
    /// It may always come.
    #[error("out of memory")]
    NoMemory,
}

impl From<NoMemory> for EvalEnd {
    ghost from_gives = { λ _ e. e ≡ Refused };

    fn from(_: NoMemory) -> EvalEnd {
        EvalEnd::NoMemory
    }
}

impl From<AllocError> for EvalEnd {
    ghost from_gives = { λ _ e. e ≡ Refused };

    fn from(_: AllocError) -> EvalEnd {
        EvalEnd::NoMemory
    }
}

impl<T: Drop> From<AllocFailed<T>> for EvalEnd {
    ghost from_gives = { λ _ e. e ≡ Refused };

    fn from(_: AllocFailed<T>) -> EvalEnd {
        EvalEnd::NoMemory
    }
}
