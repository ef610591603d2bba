//! `~`.
ghost use Rattle.std.specs.Prelude.{string_bytes};
ghost use Rattle.template_values_model.specs.Gives.{Gives};
ghost use Rattle.template_values_model.specs.Val.{Val};
ghost use Rattle.template_values_forms.specs.Concatenation.{concatenation_of};

use crate::printing::print_to;
use std::alloc::Global;
use template_values_core::Value;
use template_values_errors::Error;
use template_values_forms::Records;

// Bytes for a value that is no text: a whole number that is not large, or a truth value.
const SHORT_ROOM: usize = 16;

/// `left ~ right`: the plain text of what the two values print, one behind the other. Namespaces are
/// followed. Takes time linear in the text.
///
/// # Errors
///
/// - [`ErrorKind::InvalidOperation`], if a foreign namespace, loop or macro is met, or if a value with
///   the records that it leads to nests deeper than [`DEPTH_LIMIT`] levels.
/// - [`ErrorKind::OutOfMemory`]
///
/// [`ErrorKind::InvalidOperation`]: template_values_errors::ErrorKind::InvalidOperation
/// [`ErrorKind::OutOfMemory`]: template_values_errors::ErrorKind::OutOfMemory
/// [`DEPTH_LIMIT`]: template_values_model::DEPTH_LIMIT
pub fn string_concat<R: Records>(
    alloc: Global,
    left: &Value,
    right: &Value,
    records: &R,
) -> Result<Value, Error>
    ensures { Gives result (concatenation_of (R.known records.now) left.now right.now) }
{
    let mut joined = String::with_capacity(alloc, room_for(left, right))?;
    print_to(left, records, &mut joined)?;
    print_to(right, records, &mut joined)?;
    Value::from_text(joined)
}

/// As [`string_concat`], of a left value that is given up: where it is a plain text that no other value shares, this text is made
/// longer in its place. A chain of `~` so takes time linear in its text.
///
/// # Errors
///
/// As [`string_concat`].
pub fn string_append<R: Records>(
    alloc: Global,
    left: Value,
    right: &Value,
    records: &R,
) -> Result<Value, Error>
    ensures { Gives result (concatenation_of (R.known records.now) left right.now) }
{
    match left.into_text() {
        Ok(text) => append(text, right, records),
        Err(left) => string_concat(alloc, &left, right, records),
    }
}

// A text, and what a value prints behind it.
fn append<R: Records>(text: String, right: &Value, records: &R) -> Result<Value, Error>
    ensures { Gives result (concatenation_of (R.known records.now) (Val.text (string_bytes text)) right.now) }
{
    let mut joined = text;
    print_to(right, records, &mut joined)?;
    Value::from_text(joined)
}

// The room that is asked for two values in a text: that of texts as they are, of other values that of short ones, and a quarter
// more, for what may follow.
fn room_for(left: &Value, right: &Value) -> usize {
    let both = room(left).saturating_add(room(right));
    both.saturating_add(both / 4)
}

fn room(value: &Value) -> usize {
    match value.as_str() {
        Some(text) => text.len(),
        None => SHORT_ROOM,
    }
}
