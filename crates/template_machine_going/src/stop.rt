//! Why a run stopped before its end.
ghost use Rattle.std.specs.Prelude.{◌≡◌};
ghost use Rattle.template_machine_going.specs.Told.{IsWrapped, kinds_in, stop_writing};

use std::alloc::{AllocError, Global};
use template_values_errors::{Error, ErrorKind};

/// Why a run stopped before its end. The two are told apart by their type, since a user's own may state a fault of any kind.
#[derive(Debug, Drop)]
pub enum Stop {
    /// What runs means this error, or the fuel was used up, or its code is lost. A run around it tells it as a cause of its own.
    Fault(Error),
    /// Memory was refused, or the sink failed. Each run around it tells the same.
    Want(Error),
}

impl Stop {
    /// What a call ends with that may write into a sink: `OutOfMemory` alone and `WriteFailure` alone are wants, all else is a
    /// fault.
    #[cold]
    #[inline(never)]
    pub fn of_writing(error: Error) -> Stop
        ensures { result ≡ stop_writing error }
    {
        if error == Error::new(ErrorKind::WriteFailure) {
            return Stop::Want(error);
        }
        error.into()
    }

    /// Why a run stopped within which this one ran: a fault is the cause of one of the kind, or memory is refused where none is
    /// left for that; a want is told as it is. Copies nothing.
    pub fn wrapped(self, alloc: Global, kind: ErrorKind) -> Stop
        ensures { IsWrapped kind self result }
    {
        match self {
            Stop::Fault(error) => Error::with_cause(alloc, kind, error).into(),
            Stop::Want(error) => Stop::Want(error),
        }
    }

    /// The error, whichever it is.
    pub fn into_error(self) -> Error
        ensures { result ≡ kinds_in self }
    {
        match self {
            Stop::Fault(error) => error,
            Stop::Want(error) => error,
        }
    }
}

/// What a call ends with that writes into no sink: `OutOfMemory` alone is a want, all else is a fault.
impl From<Error> for Stop {
    ghost use Rattle.std.specs.Prelude.{◌≡◌};
    ghost use Rattle.template_machine_going.specs.Told.{stop_of};

    ghost from_gives = { λ error stop. stop ≡ stop_of error };

    #[cold]
    #[inline(never)]
    fn from(error: Error) -> Stop {
        if error == Error::new(ErrorKind::OutOfMemory) {
            return Stop::Want(error);
        }
        Stop::Fault(error)
    }
}

/// Memory was refused.
impl From<AllocError> for Stop {
    ghost use Rattle.std.specs.Prelude.{◌≡◌};
    ghost use Rattle.template_machine_going.specs.Told.{no_memory};

    ghost from_gives = { λ _ stop. stop ≡ no_memory };

    fn from(refused: AllocError) -> Stop {
        Stop::Want(refused.into())
    }
}
