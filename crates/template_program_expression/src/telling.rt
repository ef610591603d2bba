//! The line that tells a value.
ghost use Rattle.std.specs.Prelude.{◌≡◌, string_bytes};
ghost use Rattle.template_values_print.specs.Pieces.{Writes};
ghost use Rattle.template_program_expression.specs.Told.{Makes, value_line, value_text};

use std::alloc::Global;
use template_machine_operations::{forbids_printing, refusal};
use template_values_core::Value;
use template_values_errors::{Error, UndefinedBehavior};
use template_values_forms::NoRecords;
use template_values_print::{Markup, json_outer, print_outer};

/// The line of a value: its compact JSON, or what it prints, and a newline. Takes time linear in the line.
///
/// # Errors
///
/// - [`ErrorKind::UndefinedError`] where the mode forbids to print an undefined value.
/// - [`ErrorKind::BadSerialization`] as JSON: if a key is no text, a number lies outside -2^63 to 2^64 - 1, or a function,
///   a loop or a macro is met.
/// - [`ErrorKind::InvalidOperation`] if a namespace is met, or a loop or a macro that prints.
/// - [`ErrorKind::OutOfMemory`]
///
/// [`ErrorKind::UndefinedError`]: template_values_errors::ErrorKind::UndefinedError
/// [`ErrorKind::BadSerialization`]: template_values_errors::ErrorKind::BadSerialization
/// [`ErrorKind::InvalidOperation`]: template_values_errors::ErrorKind::InvalidOperation
/// [`ErrorKind::OutOfMemory`]: template_values_errors::ErrorKind::OutOfMemory
pub(crate) fn line_of(
    alloc: Global,
    mode: UndefinedBehavior,
    value: &Value,
    as_json: bool,
) -> Result<String, Error>
    ensures { Makes (value_line as_json mode value.now) result }
{
    if forbids_printing(mode, value) {
        return refusal();
    }
    let mut line = String::new(alloc);
    write_value(value, as_json, &mut line)?;
    line.push_str("\n")?;
    Ok(line)
}

// Writes the text of a value.
fn write_value(value: &Value, as_json: bool, out: &mut String) -> Result<(), Error>
    ensures { Writes Markup.Plain (string_bytes out.old) (value_text as_json value.now) result (string_bytes out.new) }
{
    if as_json {
        json_outer(value, &NoRecords, out)
    } else {
        print_outer(value, Markup::Plain, &NoRecords, out)
    }
}
