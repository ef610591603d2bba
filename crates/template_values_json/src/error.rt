//! Why a context was refused, and where.
ghost use Rattle.std.specs.Prelude.{◌≡◌};
ghost use Rattle.template_values_errors.specs.Causes.{IsHead};

use crate::places::Place;
use std::marker::Model;
use std::{error, fmt};
use template_values_errors::{Error, ErrorKind};

/// Why a context was refused, and where. A contract sees the kinds of the error.
#[derive(Debug, Drop)]
pub struct ContextError {
    error: Error,
    place: Place,
    path: Option<String>,
}

impl Model for ContextError {
    ghost use Rattle.std.specs.Prelude.{List};
    ghost use Rattle.template_values_errors.specs.declared.ErrorKind.{ErrorKind};

    ghost Value = { List ErrorKind };

    ghost view = { λ e. e.error };
}

impl ContextError {
    /// An error at a place of the document.
    pub(crate) fn at(error: Error, place: Place) -> ContextError
        ensures { result ≡ error }
    {
        ContextError {
            error,
            place,
            path: None,
        }
    }

    /// An error at a part of the document.
    pub(crate) fn within(error: Error, path: Option<String>) -> ContextError
        ensures { result ≡ error }
    {
        ContextError {
            error,
            place: Place::nowhere(),
            path,
        }
    }

    /// The refusal.
    pub fn error(&self) -> &Error
        ensures { result.now ≡ self.now }
    {
        &self.error
    }

    /// The refusal alone.
    pub fn into_error(self) -> Error
        ensures { result ≡ self }
    {
        self.error
    }

    /// What was refused.
    pub fn kind(&self) -> ErrorKind
        ensures { IsHead self.now result }
    {
        self.error.kind()
    }

    /// The line in which the reader stood where the document is no JSON, from 1 on; else 0.
    pub fn line(&self) -> usize {
        self.place.line
    }

    /// The column in that line, in bytes and from 1 on; at the document's end the number of bytes in the last line. Else 0.
    pub fn column(&self) -> usize {
        self.place.column
    }

    /// The path of a number that was refused, as `rows[3].price`: names as they stand, with points between them, and indices from 0
    /// on. Of several such numbers it is that of the first by the order of names. Empty where no number was refused, where the number
    /// is the whole document, and where memory for the path is refused.
    pub fn path(&self) -> &str {
        match &self.path {
            Some(path) => path.as_str(),
            None => "",
        }
    }
}

/// Writes the kinds, and behind these the line and the column, or the path: `SyntaxError at 3:14`, `NoFloats at rows[3].price`.
impl fmt::Display for ContextError {
    fn fmt<W: fmt::Write>(&self, f: &mut fmt::Formatter<W>) -> fmt::Result {
        let error = &self.error;
        write!(f, "{error}")?;
        if self.place.line > 0 {
            let line = self.place.line;
            let column = self.place.column;
            write!(f, " at {line}:{column}")?;
        }
        let path = self.path();
        if path.is_empty() {
            Ok(())
        } else {
            write!(f, " at {path}")
        }
    }
}

impl error::Error for ContextError {}

impl From<Error> for ContextError {
    ghost use Rattle.std.specs.Prelude.{◌≡◌};

    ghost from_gives = { λ error kinds. kinds ≡ error };

    fn from(error: Error) -> ContextError {
        ContextError::at(error, Place::nowhere())
    }
}
