//! Errors, by the names of their kinds.
use crate::constructors::text_of;
use std::alloc::Global;
use template_values::{Error, ErrorKind, Value};

/// The error of the kinds in a list, outermost first.
pub(crate) fn error_of(alloc: Global, kinds: &Value) -> Result<Error, Error> {
    let Some([causes @ .., innermost]) = kinds.items() else {
        return Err(Error::new(ErrorKind::SyntaxError));
    };
    let mut error = Error::new(kind_of(innermost)?);
    for kind in causes.iter().rev() {
        error = Error::with_cause(alloc, kind_of(kind)?, error);
        if error.kind() == ErrorKind::OutOfMemory {
            return Err(error);
        }
    }
    Ok(error)
}

fn kind_of(name: &Value) -> Result<ErrorKind, Error> {
    match text_of(name)? {
        "BadInclude" => Ok(ErrorKind::BadInclude),
        "EvalBlock" => Ok(ErrorKind::EvalBlock),
        "OutOfFuel" => Ok(ErrorKind::OutOfFuel),
        "WriteFailure" => Ok(ErrorKind::WriteFailure),
        _ => Err(Error::new(ErrorKind::SyntaxError)),
    }
}
