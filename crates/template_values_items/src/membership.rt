//! `in`.
ghost use Rattle.std.specs.Prelude.{◌≡◌};
ghost use Rattle.template_values_model.specs.Gives.{alone};
ghost use Rattle.template_values_operators.specs.Contains.{contained, held_in, has_part};

use crate::records::namespace_contains;
use template_values_core::{Content, Value};
use template_values_errors::Error;
use template_values_forms::Records;
use template_values_operators::kinds::is_undefined;
use template_values_operators::refusal;

/// Whether the value is in the container: a text in a text, an item of a list or tuple, a key of
/// a map, keyword map, module or namespace. A value that is no text is not in a text, and nothing
/// is in an undefined value. Linear in the size of a text, a list, a tuple or a namespace.
///
/// # Errors
///
/// [`ErrorKind::InvalidOperation`] at other containers and at a foreign namespace.
///
/// [`ErrorKind::InvalidOperation`]: template_values_errors::ErrorKind::InvalidOperation
pub fn contains<R: Records>(container: &Value, value: &Value, records: &R) -> Result<bool, Error>
    ensures { result ≡ alone (contained (R.known records.now) container.now value.now) }
{
    match container.content() {
        Content::Namespace(id, number) => namespace_contains(id, number, value, records),
        _ => held_in(container, value),
    }
}

/// Whether a value that is no record has the other in it.
fn held_in(container: &Value, value: &Value) -> Result<bool, Error>
    ensures { result ≡ alone (held_in container.now value.now) }
{
    if let Some(items) = container.items() {
        return Ok(items.contains(value));
    }
    if let Some(text) = container.as_str() {
        return Ok(match value.as_str() {
            Some(part) => has_part(text, part),
            None => false,
        });
    }
    if container.entries().is_some() {
        return Ok(container.value_under(value).is_some());
    }
    if is_undefined(container) {
        return Ok(false);
    }
    refusal()
}

fn has_part(text: &str, part: &str) -> bool
    ensures { result ≡ has_part text.now part.now }
{
    text.contains(part)
}
