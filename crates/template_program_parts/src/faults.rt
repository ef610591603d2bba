//! Why an input was refused.
ghost use Rattle.std.specs.Prelude.{◌≡◌};
ghost use Rattle.std.specs.IoError.{error_kind};
ghost use Rattle.template_program_parts.specs.Faults.{fault_of_read};
ghost use Rattle.template_program_parts.specs.declared.faults.FileFault.TheVariants.{Memory};

use std::alloc::{AllocError, AllocFailed};
use std::io;

/// Why an input was refused.
#[derive(Clone, Copy, Debug, PartialEq, Eq)]
pub enum FileFault {
    /// The input cannot be opened, a read failed, it is too long, or it is no UTF-8.
    File,
    /// No memory was left.
    Memory,
}

impl From<AllocError> for FileFault {
    ghost from_gives = { λ _ fault. fault ≡ Memory };

    fn from(_refused: AllocError) -> FileFault {
        FileFault::Memory
    }
}

impl<T: Drop> From<AllocFailed<T>> for FileFault {
    ghost from_gives = { λ _ fault. fault ≡ Memory };

    fn from(_refused: AllocFailed<T>) -> FileFault {
        FileFault::Memory
    }
}

impl From<io::Error> for FileFault {
    ghost from_gives = { λ error fault. fault ≡ fault_of_read (error_kind error) };

    fn from(error: io::Error) -> FileFault {
        match error.kind() {
            io::ErrorKind::OutOfMemory => FileFault::Memory,
            _ => FileFault::File,
        }
    }
}
