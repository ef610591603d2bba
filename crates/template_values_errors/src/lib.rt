//! The refusals of the template engine: a kind, and at most one error as its cause; and the modes of a render.
#![tactic(auto)]

ghost use Rattle.std.specs.Prelude.{◌≡◌, ◌∷◌, [], ◌⊎◌, IfOk, None, Some};
ghost use Rattle.std.specs.Fmt.{WritesOnOk, padded};
ghost use Rattle.std.specs.Cmp.{partial_equiv_from_equiv};
ghost use Rattle.template_values_errors.specs.Same.{same_kinds, same_kinds-laws};
ghost use Rattle.template_values_errors.specs.Causes.{IsCause, IsHead, IsKindedCause};
ghost use Rattle.template_values_errors.specs.Chain.{HasKinds, kinds_of};
ghost use Rattle.template_values_errors.specs.Memory.{NoMemory};
ghost use Rattle.template_values_errors.specs.Names.{causes_text, kind_name, kinds_text};

mod modes;
mod places;

pub use modes::{AutoEscape, UndefinedBehavior};
pub use places::Place;
use std::alloc::{AllocError, AllocFailed, Global};
use std::marker::Model;
use std::ops::Range;
use std::{error, fmt};

/// Why a call was refused.
#[derive(Clone, Copy, Debug, PartialEq, Eq)]
pub enum ErrorKind {
    /// A text outside the grammar, or past one of its limits.
    SyntaxError,
    /// Delimiters that cannot be told apart, or are empty.
    InvalidDelimiter,
    /// A source of 2^32 bytes or more, or code of 2^32 instructions or more.
    TooLarge,
    /// A growth was refused.
    OutOfMemory,
    /// No template of that name stands.
    TemplateNotFound,
    /// An operator or a call at values that it does not take, or past a limit.
    InvalidOperation,
    /// An undefined value was used where the environment forbids it.
    UndefinedError,
    /// No filter of that name.
    UnknownFilter,
    /// No test of that name.
    UnknownTest,
    /// No function of that name.
    UnknownFunction,
    /// No method of that name.
    UnknownMethod,
    /// No block of that name.
    UnknownBlock,
    /// More arguments than the callee takes, or one that it does not know.
    TooManyArguments,
    /// An argument that the callee needs was not given.
    MissingArgument,
    /// A value that does not unpack into the targets.
    CannotUnpack,
    /// A value that has no JSON.
    BadSerialization,
    /// An escape in a text literal that is none.
    BadEscape,
    /// An included template ended with the cause.
    BadInclude,
    /// A parent's block ended with the cause.
    EvalBlock,
    /// The writer failed.
    WriteFailure,
    /// The fuel was used up.
    OutOfFuel,
    /// Instructions that no generator makes.
    BadStream,
    /// A number with a fraction or an exponent.
    NoFloats,
}

impl ErrorKind {
    /// The word that stands for this kind in a fault line.
    pub fn name(self) -> &'static str
        ensures { result.now ≡ kind_name self }
    {
        match self {
            ErrorKind::SyntaxError => "SyntaxError",
            ErrorKind::InvalidDelimiter => "InvalidDelimiter",
            ErrorKind::TooLarge => "TooLarge",
            ErrorKind::OutOfMemory => "OutOfMemory",
            ErrorKind::TemplateNotFound => "TemplateNotFound",
            ErrorKind::InvalidOperation => "InvalidOperation",
            ErrorKind::UndefinedError => "UndefinedError",
            ErrorKind::UnknownFilter => "UnknownFilter",
            ErrorKind::UnknownTest => "UnknownTest",
            ErrorKind::UnknownFunction => "UnknownFunction",
            ErrorKind::UnknownMethod => "UnknownMethod",
            ErrorKind::UnknownBlock => "UnknownBlock",
            ErrorKind::TooManyArguments => "TooManyArguments",
            ErrorKind::MissingArgument => "MissingArgument",
            ErrorKind::CannotUnpack => "CannotUnpack",
            ErrorKind::BadSerialization => "BadSerialization",
            ErrorKind::BadEscape => "BadEscape",
            ErrorKind::BadInclude => "BadInclude",
            ErrorKind::EvalBlock => "EvalBlock",
            ErrorKind::WriteFailure => "WriteFailure",
            ErrorKind::OutOfFuel => "OutOfFuel",
            ErrorKind::BadStream => "BadStream",
            ErrorKind::NoFloats => "NoFloats",
        }
    }
}

impl fmt::Display for ErrorKind {
    ghost output = { λ kind. Some (kind_name kind) };

    ghost styled_output = { λ kind spec. Some (padded spec (kind_name kind)) };

    fn fmt<W: fmt::Write>(&self, f: &mut fmt::Formatter<W>) -> fmt::Result {
        f.pad(self.name())
    }
}

/// A refusal: its kind, the error that caused it, if one did, and the places where it happened. A
/// contract sees the kinds, outermost first.
#[cycle(errors)]
#[derive(Debug, Drop)]
pub struct Error {
    kind: ErrorKind,
    rest: Option<Box<Rest>>,
}

/// What an error has beside its kind; most have neither.
#[cycle(errors)]
#[derive(Debug, Drop)]
struct Rest {
    cause: Option<Error>,
    places: Vec<Place>,
}

impl Model for Error {
    ghost use Rattle.std.specs.Prelude.{List, ◌∷◌, length};
    ghost use Rattle.std.proofs.Common.{arith};
    ghost use Rattle.template_values_errors.specs.declared.ErrorKind.{ErrorKind};

    ghost Value = { List ErrorKind };

    ghost use Rattle.template_values_errors.specs.Chain.{HasKinds, kinds_of};

    ghost view = { λ e. e.kind ∷ kinds_of e.rest };

    ghost invariant = { λ e. HasKinds e.rest };

    ghost size = { length };

    ghost size_decreases = { λ e h. Prim.grind arith };
}

impl Error {
    /// An error with no cause and no place.
    pub fn new(kind: ErrorKind) -> Error
        ensures { result ≡ kind ∷ [] }
    {
        Error { kind, rest: None }
    }

    /// An error that `cause` led to. Where no memory is left for the cause, the error is
    /// [`ErrorKind::OutOfMemory`] alone.
    pub fn with_cause(alloc: Global, kind: ErrorKind, cause: Error) -> Error
        ensures { (result ≡ kind ∷ cause) ⊎ NoMemory result }
    {
        let rest = Rest {
            cause: Some(cause),
            places: Vec::new(alloc),
        };
        match Box::new(alloc, rest) {
            Ok(rest) => Error {
                kind,
                rest: Some(rest),
            },
            Err(refused) => refused.into(),
        }
    }

    /// The same error, with `place` as the last of its places. Where no memory is left for the
    /// place, it has those that it had.
    pub fn placed(self, alloc: Global, place: Place) -> Error
        ensures { result ≡ self }
    {
        let Error { kind, rest } = self;
        Error {
            kind,
            rest: with_place(alloc, rest, place),
        }
    }

    /// What was refused.
    pub fn kind(&self) -> ErrorKind
        ensures { IsHead self.now result }
    {
        self.kind
    }

    /// The error that led to this one.
    pub fn cause(&self) -> Option<&Error>
        ensures { IsCause self.now result }
    {
        self.kinded_cause()
    }

    fn kinded_cause(&self) -> Option<&Error>
        ensures { IsKindedCause self.now result }
    {
        match &self.rest {
            Some(rest) => match &rest.cause {
                Some(cause) => Some(cause),
                None => None,
            },
            None => None,
        }
    }

    /// Where this was refused: first what was refused, then each call of a macro, a block or a
    /// recursive loop around it. What a cause has is its own. None where memory was wanting, where
    /// the writer failed, or where what was refused lies in no template.
    pub fn places(&self) -> &[Place] {
        match &self.rest {
            Some(rest) => rest.places.as_slice(),
            None => &[],
        }
    }

    /// The name of the template that the first place lies in.
    pub fn name(&self) -> Option<&str> {
        match self.places().first() {
            Some(place) => Some(place.name.as_str()),
            None => None,
        }
    }

    /// The line of the first place; lines begin at 1.
    pub fn line(&self) -> Option<usize> {
        match self.places().first() {
            Some(place) => Some(place.line as usize),
            None => None,
        }
    }

    /// The bytes of the source at the first place; none where only a line is known.
    pub fn range(&self) -> Option<Range<usize>> {
        match self.places().first() {
            Some(place) if place.start < place.end => {
                Some(place.start as usize..place.end as usize)
            }
            _ => None,
        }
    }
}

/// What an error has beside its kind, with one more place, or as it was where no memory is left.
fn with_place(alloc: Global, rest: Option<Box<Rest>>, place: Place) -> Option<Box<Rest>>
    requires { HasKinds rest }
    ensures kinded { HasKinds result }
    ensures same { kinds_of result ≡ kinds_of rest }
{
    match rest {
        Some(mut rest) => {
            let _ = rest.places.push(place);
            Some(rest)
        }
        None => match one_place(alloc, place) {
            Ok(rest) => Some(rest),
            Err(_wanting) => None,
        },
    }
}

/// One place, and no cause.
fn one_place(alloc: Global, place: Place) -> Result<Box<Rest>, Error>
    ensures { IfOk result (λ rest. rest.value.cause ≡ None) }
{
    let mut places = Vec::new(alloc);
    places.push(place)?;
    let rest = Rest {
        cause: None,
        places,
    };
    Ok(Box::new(alloc, rest)?)
}

/// Writes the kinds, outermost first, joined by `: `, as `BadInclude: OutOfFuel`.
impl fmt::Display for Error {
    ghost output = { λ kinds. Some (kinds_text kinds) };

    fn fmt<W: fmt::Write>(&self, f: &mut fmt::Formatter<W>) -> fmt::Result {
        f.write_str(self.kind.name())?;
        match self.cause() {
            Some(cause) => write_cause(cause, f),
            None => Ok(()),
        }
    }
}

/// Writes the kinds of a cause, each behind `: `.
fn write_cause<W: fmt::Write>(cause: &Error, f: &mut fmt::Formatter<W>) -> fmt::Result
    ensures { WritesOnOk W.write_str_gives f.old result (causes_text cause.now) f.new }
{
    f.write_str(": ")?;
    f.write_str(cause.kind.name())?;
    match cause.cause() {
        Some(cause) => write_cause(cause, f),
        None => Ok(()),
    }
}

impl error::Error for Error {}

/// Equal where the kinds are, in order. Linear in their number.
impl PartialEq for Error {
    ghost eq = { same_kinds };

    ghost laws = { partial_equiv_from_equiv same_kinds-laws };

    fn eq(&self, other: &Error) -> bool {
        self.kind == other.kind
            && match (self.kinded_cause(), other.kinded_cause()) {
                (Some(cause), Some(other)) => cause == other,
                (None, None) => true,
                _ => false,
            }
    }
}

impl Eq for Error {
    ghost laws = { same_kinds-laws };
}

/// Want of memory, so that `?` refuses where a growth was refused.
impl From<AllocError> for Error {
    ghost from_gives = { λ _ kinds. NoMemory kinds };

    fn from(_refused: AllocError) -> Error {
        Error::new(ErrorKind::OutOfMemory)
    }
}

/// Want of memory, from a call that hands back what it did not keep, which is dropped.
impl<T: Drop> From<AllocFailed<T>> for Error {
    ghost from_gives = { λ _ kinds. NoMemory kinds };

    fn from(_refused: AllocFailed<T>) -> Error {
        Error::new(ErrorKind::OutOfMemory)
    }
}
