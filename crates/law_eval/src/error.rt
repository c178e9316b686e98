use law_sig::NoMemory;
use std::alloc::{AllocError, AllocFailed};

/// Why an application has no answer.
#[derive(Clone, Copy, Debug, PartialEq, Eq)]
pub enum EvalErr {
    /// It has no value at a cost within the budget.
    Over,
    /// Memory ran out.
    NoMemory,
}

impl From<NoMemory> for EvalErr {
    ghost use Rattle.law_eval.specs.declared.error.EvalErr.TheVariants as which;
    ghost use Rattle.std.specs.Prelude.{◌≡◌};

    ghost from_gives = { λ _ e. e ≡ which.NoMemory };

    fn from(_refused: NoMemory) -> EvalErr {
        EvalErr::NoMemory
    }
}

impl From<AllocError> for EvalErr {
    ghost use Rattle.law_eval.specs.declared.error.EvalErr.TheVariants as which;
    ghost use Rattle.std.specs.Prelude.{◌≡◌};

    ghost from_gives = { λ _ e. e ≡ which.NoMemory };

    fn from(_refused: AllocError) -> EvalErr {
        EvalErr::NoMemory
    }
}

impl<T: Drop> From<AllocFailed<T>> for EvalErr {
    ghost use Rattle.law_eval.specs.declared.error.EvalErr.TheVariants as which;
    ghost use Rattle.std.specs.Prelude.{◌≡◌};

    ghost from_gives = { λ _ e. e ≡ which.NoMemory };

    fn from(_refused: AllocFailed<T>) -> EvalErr {
        EvalErr::NoMemory
    }
}
