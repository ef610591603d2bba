//! The printed forms, items and truth of values, under a behaviour of undefined values.
ghost use Rattle.std.specs.Prelude.{◌≡◌, [], ◌∷◌, Err, string_bytes};
ghost use Rattle.template_builtins_arguments.specs.Answers.{Tells, TellsAs};
ghost use Rattle.template_builtins_arguments.specs.Parts.{is_half_strict, is_loud, is_strict, is_unseen, items_of, text_of, truth_of};
ghost use Rattle.template_builtins_arguments.specs.Printing.{shown};
ghost use Rattle.template_callables.specs.Views.{seen_in};

use crate::answers::refusal;
use std::alloc::Global;
use template_callables::CallView;
use template_values_core::{Content, Value};
use template_values_errors::{Error, ErrorKind, UndefinedBehavior};
use template_values_forms::NoRecords;

/// The printed form of a value: that of a text is the text itself, and not copied.
#[derive(Drop)]
pub enum PrintedForm<'a> {
    /// A text's own.
    Held(&'a str),
    /// One that was made.
    Made(String),
}

impl PrintedForm<'_> {
    /// The text.
    pub fn as_str(&self) -> &str
        ensures { result.now ≡ shown self.now }
    {
        match self {
            PrintedForm::Held(text) => text,
            PrintedForm::Made(text) => text.as_str(),
        }
    }
}

/// The printed form of a value. Linear in its length, but for that of a text, which takes no time.
///
/// # Errors
///
/// - [`ErrorKind::UndefinedError`] at an undefined value, where these may not be printed.
/// - [`ErrorKind::InvalidOperation`] at a namespace, a loop or a macro, also inside of a container.
/// - [`ErrorKind::OutOfMemory`]
pub fn printed<'a>(
    alloc: Global,
    view: &CallView<'_>,
    value: &'a Value,
) -> Result<PrintedForm<'a>, Error>
    ensures { TellsAs shown result (text_of (seen_in view.now) value.entry.now) }
{
    match value.as_str() {
        Some(text) => Ok(PrintedForm::Held(text)),
        None => printed_anew(alloc, view, value),
    }
}

fn printed_anew<'a>(
    alloc: Global,
    view: &CallView<'_>,
    value: &Value,
) -> Result<PrintedForm<'a>, Error>
    ensures { TellsAs shown result (text_of (seen_in view.now) value.now) }
{
    if is_half_strict(view.undefined_behavior()) && is_loud(value) {
        return Err(Error::new(ErrorKind::UndefinedError));
    }
    let mut text = String::new(alloc);
    template_values_print::print_to(value, &NoRecords, &mut text)?;
    Ok(PrintedForm::Made(text))
}

/// The items of a loop over the value: of a list or tuple, the keys of a map, the characters of a text, none of `none` and undefined.
/// Linear in their number.
///
/// # Errors
///
/// - [`ErrorKind::UndefinedError`] at an undefined value, where these may not be gone over.
/// - [`ErrorKind::InvalidOperation`] at another value, a namespace among them.
/// - [`ErrorKind::OutOfMemory`]
pub fn items_of(alloc: Global, view: &CallView<'_>, value: &Value) -> Result<Vec<Value>, Error>
    ensures { TellsAs (λ items. items.items) result (items_of (seen_in view.now) value.now) }
{
    if is_half_strict(view.undefined_behavior()) && is_loud(value) {
        return Err(Error::new(ErrorKind::UndefinedError));
    }
    template_values_items::items_of(alloc, value, &NoRecords)
}

/// Whether the value counts as true.
///
/// # Errors
///
/// - [`ErrorKind::UndefinedError`] at an undefined value, where these may not be asked for their truth.
/// - [`ErrorKind::InvalidOperation`] at a namespace, a loop or a macro.
pub fn truth_of(view: &CallView<'_>, value: &Value) -> Result<bool, Error>
    ensures { Tells result (truth_of (seen_in view.now) value.now) }
{
    if is_strict(view.undefined_behavior()) && is_loud(value) {
        return Err(Error::new(ErrorKind::UndefinedError));
    }
    if is_unseen(value) {
        return refusal();
    }
    template_values_print::is_true(value, &NoRecords)
}

// Whether the value is a loop or a macro.
fn is_unseen(value: &Value) -> bool
    ensures { result ≡ is_unseen value.now }
{
    match value.content() {
        Content::Loop(_, _) | Content::Macro(_, _) => true,
        _ => false,
    }
}

/// Whether the value is undefined, and not the silent one.
pub fn is_loud(value: &Value) -> bool
    ensures { result ≡ is_loud value.now }
{
    match value.content() {
        Content::Undefined => true,
        _ => false,
    }
}

/// Whether undefined values may be neither printed nor gone over.
pub fn is_half_strict(mode: UndefinedBehavior) -> bool
    ensures { result ≡ is_half_strict mode }
{
    match mode {
        UndefinedBehavior::SemiStrict | UndefinedBehavior::Strict => true,
        UndefinedBehavior::Lenient | UndefinedBehavior::Chainable => false,
    }
}

/// Whether undefined values may be neither asked for their truth nor compared.
pub fn is_strict(mode: UndefinedBehavior) -> bool
    ensures { result ≡ is_strict mode }
{
    match mode {
        UndefinedBehavior::Strict => true,
        _ => false,
    }
}
