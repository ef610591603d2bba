//! Why tokens are no expression.
ghost use Rattle.std.specs.Prelude.{◌≡◌};
ghost use Rattle.template_compiler_stream.specs.declared.refusal.Refusal.TheVariants as refusals;

use std::alloc::{AllocError, AllocFailed};

/// Why a token does not fit.
#[derive(Clone, Copy, Debug, PartialEq, Eq)]
pub enum Fault {
    /// It stands where another one would have to.
    Syntax,
    /// It is a text literal with an escape that is none.
    Escape,
    /// It is a number with a fraction or an exponent.
    Float,
}

/// Why nothing was read.
#[derive(Clone, Copy, Debug, PartialEq, Eq)]
pub enum Refusal {
    /// The tokens are no expression.
    Token(Fault),
    /// A growth was refused.
    OutOfMemory,
}

impl From<AllocError> for Refusal {
    ghost from_gives = { λ _ e. e ≡ refusals.OutOfMemory };

    fn from(_error: AllocError) -> Refusal {
        Refusal::OutOfMemory
    }
}

impl<T: Drop> From<AllocFailed<T>> for Refusal {
    ghost from_gives = { λ _ e. e ≡ refusals.OutOfMemory };

    fn from(_error: AllocFailed<T>) -> Refusal {
        Refusal::OutOfMemory
    }
}
