//! Why the words were refused.
ghost use Rattle.std.specs.Prelude.{◌≡◌};
ghost use Rattle.clap.specs.Words.{kind_of};
ghost use Rattle.template_program_words.specs.Refusals.{IsWordsFault, IsUsage};
ghost use Rattle.template_program_words.specs.declared.faults.WordsFault.TheVariants.{Memory};

use clap::error::ErrorKind;
use std::alloc::{AllocError, AllocFailed, Global};

/// Why no words were read.
#[derive(Debug, Drop)]
pub enum WordsFault {
    /// No memory was left.
    Memory,
    /// Help was asked for: its text.
    Help(String),
    /// The version was asked for: its text.
    Version(String),
    /// The words are none that the program takes: the text for the user, in lines.
    Usage(String),
    /// A definition has no `=`, behind `-D` or `--json`.
    Definition,
}

impl From<AllocError> for WordsFault {
    ghost from_gives = { λ _ fault. fault ≡ Memory };

    fn from(_refused: AllocError) -> WordsFault {
        WordsFault::Memory
    }
}

impl<T: Drop> From<AllocFailed<T>> for WordsFault {
    ghost from_gives = { λ _ fault. fault ≡ Memory };

    fn from(_refused: AllocFailed<T>) -> WordsFault {
        WordsFault::Memory
    }
}

/// The fault that `error` is.
pub(crate) fn fault_from(alloc: Global, error: &clap::Error) -> WordsFault
    ensures { IsWordsFault (kind_of error.now) result }
{
    if error.kind() == ErrorKind::OutOfMemory {
        return WordsFault::Memory;
    }
    let Ok(text) = error.to_string(alloc) else {
        return WordsFault::Memory;
    };
    match error.kind() {
        ErrorKind::DisplayHelp => WordsFault::Help(text),
        ErrorKind::DisplayVersion => WordsFault::Version(text),
        _ => WordsFault::Usage(text),
    }
}

/// The fault where an option, as `--undefined <MODE>`, takes none but the possible values, in the words in which
/// `clap` refuses a value.
pub(crate) fn unknown_value(alloc: Global, value: &str, option: &str, possible: &str) -> WordsFault
    ensures { IsUsage result }
{
    let text = format!(in alloc;
        "error: invalid value '{value}' for '{option}'\n  \
         [possible values: {possible}]\n\n\
         For more information, try '--help'.\n"
    );
    match text {
        Ok(text) => WordsFault::Usage(text),
        Err(_refused) => WordsFault::Memory,
    }
}
