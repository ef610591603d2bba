//! Values that are put together to a text.
ghost use Rattle.std.specs.Prelude.{◌≡◌, option_copied, string_bytes};
ghost use Rattle.template_builtins_arguments.specs.Answers.{Tells, TellsAs};
ghost use Rattle.template_builtins_arguments.specs.Texts.{piece_of};
ghost use Rattle.template_builtins_lists.specs.Joins as joins;
ghost use Rattle.template_callables.specs.Views.{seen_in};

use std::alloc::Global;
use template_builtins_arguments::{is_html, is_safe, makes_safe, printed, push_piece, text_made};
use template_callables::CallView;
use template_values_core::Value;
use template_values_errors::Error;

/// What stands for values in a text, with a separator between them. Linear in the length of the text.
///
/// # Errors
///
/// - [`ErrorKind::UndefinedError`](template_values_errors::ErrorKind::UndefinedError) at an undefined value, where these may not be
///   printed.
/// - [`ErrorKind::InvalidOperation`](template_values_errors::ErrorKind::InvalidOperation) at a namespace, a loop or a macro, also
///   inside of a container.
pub(crate) fn joined(
    alloc: Global,
    view: &CallView<'_>,
    separator: Option<&Value>,
    values: &[Value],
) -> Result<Value, Error>
    ensures { Tells result (joins.joined (seen_in view.now) (option_copied separator.entry) values.now) }
{
    joined_by(
        alloc,
        view,
        makes_safe_text(view, separator, values),
        separator,
        values,
    )
}

/// Tests whether what is given can be printed.
///
/// # Errors
///
/// Those of [`printed`].
pub(crate) fn printable(
    alloc: Global,
    view: &CallView<'_>,
    given: Option<&Value>,
) -> Result<(), Error>
    ensures { Tells result (joins.printable (seen_in view.now) (option_copied given.entry)) }
{
    match given {
        None => Ok(()),
        Some(value) => shown(alloc, view, value),
    }
}

#[tactic(auto, unfolding(crate::specs::Joins::shown))]
fn shown(alloc: Global, view: &CallView<'_>, value: &Value) -> Result<(), Error>
    ensures { Tells result (joins.shown (seen_in view.now) value.now) }
{
    printed(alloc, view, value)?;
    Ok(())
}

#[tactic(auto, unfolding(crate::specs::Joins::makes_safe_text))]
fn makes_safe_text(view: &CallView<'_>, separator: Option<&Value>, values: &[Value]) -> bool
    ensures { result ≡ joins.makes_safe_text (seen_in view.now) (option_copied separator.entry) values.now }
{
    is_safe_separator(view, separator) || makes_safe(view, values)
}

fn is_safe_separator(view: &CallView<'_>, separator: Option<&Value>) -> bool
    ensures { result ≡ joins.is_safe_separator (seen_in view.now) (option_copied separator.entry) }
{
    match separator {
        None => false,
        Some(separator) => is_html(view.auto_escape()) && is_safe(separator),
    }
}

#[tactic(auto, unfolding(crate::specs::Joins::joined_by))]
fn joined_by(
    alloc: Global,
    view: &CallView<'_>,
    safe: bool,
    separator: Option<&Value>,
    values: &[Value],
) -> Result<Value, Error>
    ensures { Tells result (joins.joined_by (seen_in view.now) safe (option_copied separator.entry) values.now) }
{
    let between = separator_from(alloc, view, safe, separator)?;
    let text = joined_with(alloc, view, safe, between.as_str(), values)?;
    text_made(safe, text)
}

fn separator_from(
    alloc: Global,
    view: &CallView<'_>,
    safe: bool,
    separator: Option<&Value>,
) -> Result<String, Error>
    ensures { TellsAs (λ s. string_bytes s) result (joins.separator_from (seen_in view.now) safe (option_copied separator.entry)) }
{
    let text = String::new(alloc);
    match separator {
        None => Ok(text),
        Some(separator) => with_piece(view, safe, separator, text),
    }
}

#[tactic(auto, unfolding(crate::specs::Joins::joined_with))]
fn joined_with(
    alloc: Global,
    view: &CallView<'_>,
    safe: bool,
    separator: &str,
    values: &[Value],
) -> Result<String, Error>
    ensures { TellsAs (λ s. string_bytes s) result (joins.joined_with (seen_in view.now) safe separator.now values.now) }
{
    let text = String::new(alloc);
    match values {
        [] => Ok(text),
        [first, rest @ ..] => {
            let text = with_piece(view, safe, first, text)?;
            with_each(view, safe, separator, rest, text)
        }
    }
}

// The text with each value behind the separator.
fn with_each(
    view: &CallView<'_>,
    safe: bool,
    separator: &str,
    values: &[Value],
    text: String,
) -> Result<String, Error>
    ensures { TellsAs (λ s. string_bytes s) result
        (joins.put_behind (string_bytes text) (joins.joined_behind (seen_in view.now) safe separator.now values.now)) }
{
    let mut whole = text;
    for value in values {
        whole.push_str(separator)?;
        whole = with_piece(view, safe, value, whole)?;
    }
    Ok(whole)
}

// The text with what stands for a value behind it.
fn with_piece(view: &CallView<'_>, safe: bool, value: &Value, text: String) -> Result<String, Error>
    ensures { TellsAs (λ s. string_bytes s) result (joins.put_behind (string_bytes text) (piece_of (seen_in view.now) safe value.now)) }
{
    let mut whole = text;
    push_piece(view, safe, value, &mut whole)?;
    Ok(whole)
}
