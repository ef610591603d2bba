//! Why a sink took no more.
ghost use Rattle.std.specs.Prelude.{◌≡◌, ◌∷◌, []};
ghost use Rattle.template_machine_surroundings.specs.Failures.{kind_of_fault};

use template_values_errors::{Error, ErrorKind};

/// Why a sink took no more.
#[derive(Clone, Copy, Debug, PartialEq, Eq)]
pub enum SinkFault {
    /// A growth was refused.
    Memory,
    /// What stands behind the sink failed.
    Device,
}

impl From<SinkFault> for Error {
    ghost from_gives = { λ fault error. error ≡ kind_of_fault fault ∷ [] };

    fn from(fault: SinkFault) -> Error {
        Error::new(match fault {
            SinkFault::Memory => ErrorKind::OutOfMemory,
            SinkFault::Device => ErrorKind::WriteFailure,
        })
    }
}
