//! Why a request was refused.
ghost use Rattle.std.specs.Prelude.{◌≡◌};
ghost use Rattle.template_requests.specs.declared.faults.MessageFault.TheVariants.{Memory};

use crate::member::Member;
use std::alloc::{AllocError, AllocFailed};

/// Why a request was refused.
#[derive(Clone, Copy, Debug, PartialEq, Eq)]
pub enum MessageFault {
    /// The member lacks, or says nothing that it can say.
    Malformed(Member),
    /// No memory was left.
    Memory,
}

impl From<AllocError> for MessageFault {
    ghost from_gives = { λ _ fault. fault ≡ Memory };

    fn from(_refused: AllocError) -> MessageFault {
        MessageFault::Memory
    }
}

impl<T: Drop> From<AllocFailed<T>> for MessageFault {
    ghost from_gives = { λ _ fault. fault ≡ Memory };

    fn from(_refused: AllocFailed<T>) -> MessageFault {
        MessageFault::Memory
    }
}
