//! The lines of what a check finds.
ghost use Rattle.std.specs.Prelude.{IfOk, string_bytes};
ghost use Rattle.template_program_check.specs.Lines.{IsNameLine, IsRefusalLine};

use std::alloc::{AllocError, Global};
use template_values_errors::{Error, ErrorKind};

/// The line of a refusal: where it happened, a colon and its kinds, as `page.html:12:7: SyntaxError`.
pub(crate) fn refusal_line(alloc: Global, name: &str, error: &Error) -> Result<String, AllocError>
    ensures { IfOk result (λ line. IsRefusalLine error.now (string_bytes line)) }
{
    let place = place_of(alloc, name, error)?;
    format!(in alloc; "{place}: {error}\n")
}

/// The line of a name that nothing has: where it stands, a colon, its kind and the name, as
/// `page.html:3:9: UnknownFilter nope`.
pub(crate) fn name_line(
    alloc: Global,
    place: &str,
    kind: ErrorKind,
    name: &str,
) -> Result<String, AllocError>
    ensures { IfOk result (λ line. IsNameLine kind name.now (string_bytes line)) }
{
    format!(in alloc; "{place}: {kind} {name}\n")
}

/// The first place of an error; where it has none, the name of its template.
pub(crate) fn place_of(alloc: Global, name: &str, error: &Error) -> Result<String, AllocError> {
    match error.places().first() {
        Some(place) => format!(in alloc; "{place}"),
        None => String::from_str(alloc, name),
    }
}
