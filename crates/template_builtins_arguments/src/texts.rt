//! Texts that are made, safe or plain.
ghost use Rattle.std.specs.Prelude.{◌≡◌, ◌++◌, IfErr, IfOk, OnErr, Ok, string_bytes};
ghost use Rattle.std.specs.List.{list_any};
ghost use Rattle.template_values_errors.specs.Memory.{NoMemory};
ghost use Rattle.template_builtins_arguments.specs.Texts as texts;
ghost use Rattle.template_builtins_arguments.specs.Appending.{Adds};
ghost use Rattle.template_callables.specs.Views.{seen_in};

use crate::parts::{is_half_strict, is_loud};
use template_callables::CallView;
use template_values_core::{Content, Value};
use template_values_errors::{AutoEscape, Error, ErrorKind};
use template_values_forms::NoRecords;
use template_values_print::escape_to;

/// Whether the value is a safe text.
pub fn is_safe(value: &Value) -> bool
    ensures { result ≡ texts.is_safe value.now }
{
    match value.content() {
        Content::SafeText(_) => true,
        _ => false,
    }
}

/// Whether HTML's escape is in force.
pub fn is_html(escape: AutoEscape) -> bool
    ensures { result ≡ texts.is_html escape }
{
    match escape {
        AutoEscape::Html => true,
        AutoEscape::None | AutoEscape::Json | AutoEscape::Custom(_) => false,
    }
}

/// Whether values that are put together make a safe text: HTML's escape is in force, and one of them is safe. Linear in their
/// number.
pub fn makes_safe(view: &CallView<'_>, values: &[Value]) -> bool
    ensures { result ≡ texts.makes_safe (seen_in view.now) values.now }
{
    is_html(view.auto_escape()) && holds_safe(values)
}

// Whether one of the values is safe.
fn holds_safe(values: &[Value]) -> bool
    ensures { result ≡ list_any texts.is_safe values.now }
{
    values.iter().any(|value| is_safe(value))
}

/// A safe text or a plain one. Its bytes are not copied.
///
/// # Errors
///
/// [`ErrorKind::OutOfMemory`]
pub fn text_made(safe: bool, text: String) -> Result<Value, Error>
    ensures made { IfOk result (λ v. v ≡ texts.text_made safe (string_bytes text)) }
    ensures refused { IfErr result NoMemory }
{
    if safe {
        Value::from_safe_text(text)
    } else {
        Value::from_text(text)
    }
}

/// Appends what stands for a value in a text that is put together: its printed form, or where the whole is to be safe and the value
/// is not, that under HTML's escape. What is refused leaves the text as it was. Linear in the length.
///
/// # Errors
///
/// - [`ErrorKind::UndefinedError`] at an undefined value, where these may not be printed.
/// - [`ErrorKind::InvalidOperation`] at a namespace, a loop or a macro, also inside of a container.
/// - [`ErrorKind::OutOfMemory`]
pub fn push_piece(
    view: &CallView<'_>,
    safe: bool,
    value: &Value,
    out: &mut String,
) -> Result<(), Error>
    ensures { Adds (string_bytes out.old) (texts.piece_of (seen_in view.now) safe value.now) result (string_bytes out.new) }
{
    if is_half_strict(view.undefined_behavior()) && is_loud(value) {
        return Err(Error::new(ErrorKind::UndefinedError));
    }
    escape_to(value, rule_of(safe), &NoRecords, out)
}

// The escape of what is put into a text.
fn rule_of(safe: bool) -> AutoEscape
    ensures { result ≡ texts.rule_of safe }
{
    if safe {
        AutoEscape::Html
    } else {
        AutoEscape::None
    }
}
