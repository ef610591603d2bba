//! The text that a value prints.
ghost use Rattle.std.specs.Prelude.{string_bytes};
ghost use Rattle.template_values_forms.specs.Answers.{AppendsOrRefuses};
ghost use Rattle.template_values_forms.specs.Printed.{printed};

use crate::{Markup, print_outer};
use template_values_core::Value;
use template_values_errors::Error;
use template_values_forms::Records;

/// Appends the text that the value prints to `out`, which a refusal leaves as it was. Namespaces are
/// followed. Inside of containers texts stand between quotes, with `\n`, `\r`, `\t`, and `\u{..}` for the
/// other control characters below U+0020 and for U+007F; those from U+0080 on stand for themselves.
/// Takes time linear in the text.
///
/// # Errors
///
/// - [`ErrorKind::InvalidOperation`], if a foreign namespace, loop or macro is met, or if the value with
///   the records that it leads to nests deeper than [`DEPTH_LIMIT`] levels. A module prints as its text:
///   what it holds is not met.
/// - [`ErrorKind::OutOfMemory`]
///
/// [`ErrorKind::InvalidOperation`]: template_values_errors::ErrorKind::InvalidOperation
/// [`ErrorKind::OutOfMemory`]: template_values_errors::ErrorKind::OutOfMemory
/// [`DEPTH_LIMIT`]: template_values_model::DEPTH_LIMIT
pub fn print_to<R: Records>(value: &Value, records: &R, out: &mut String) -> Result<(), Error>
    ensures { AppendsOrRefuses (string_bytes out.old) (printed (R.known records.now) value.now) result (string_bytes out.new) }
{
    let length = out.as_str().len();
    match print_outer(value, Markup::Plain, records, out) {
        Ok(()) => Ok(()),
        Err(error) => {
            out.truncate(length);
            Err(error)
        }
    }
}
