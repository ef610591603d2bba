//! Refusals of tokens as errors, and the other way round.
ghost use Rattle.std.specs.Prelude.{◌≡◌, ◌∷◌, []};
ghost use Rattle.template_compiler_sources.specs.Kinds.{IsFaultOf, refused_kind};

use template_compiler_stream::{Fault, Refusal};
use template_values_errors::{Error, ErrorKind};

// What a tokenizer found, by the kind of its error; none is want of memory.
pub(crate) fn fault_of(kind: ErrorKind) -> Option<Fault>
    ensures { IsFaultOf kind result }
{
    match kind {
        ErrorKind::SyntaxError => Some(Fault::Syntax),
        ErrorKind::BadEscape => Some(Fault::Escape),
        ErrorKind::NoFloats => Some(Fault::Float),
        _ => None,
    }
}

/// The error that tells a refusal, alone.
pub fn error_of(refusal: Refusal) -> Error
    ensures { result ≡ refused_kind refusal ∷ [] }
{
    match refusal {
        Refusal::Token(Fault::Syntax) => Error::new(ErrorKind::SyntaxError),
        Refusal::Token(Fault::Escape) => Error::new(ErrorKind::BadEscape),
        Refusal::Token(Fault::Float) => Error::new(ErrorKind::NoFloats),
        Refusal::OutOfMemory => Error::new(ErrorKind::OutOfMemory),
    }
}
