//! The filter on formats.
ghost use Rattle.template_builtins_arguments.specs.Answers.{Tells};
ghost use Rattle.template_builtins_formats.specs.Filters as filters;
ghost use Rattle.template_callables.specs.Views.{seen_in};

use crate::arguments::all_by_place;
use crate::formats::formatted;
use std::alloc::Global;
use template_builtins_arguments::printed;
use template_callables::CallView;
use template_values_core::Value;
use template_values_errors::Error;

/// The filter on formats.
#[derive(Clone, Copy)]
pub enum FormatFilter {
    /// A text in which arguments stand in the places of its directives.
    Format,
}

impl FormatFilter {
    /// What the filter makes of a value and the arguments after it: a plain text. Linear in the lengths of the value's text, of the
    /// arguments' and of the widths and precisions.
    ///
    /// # Errors
    ///
    /// - [`ErrorKind::TooManyArguments`] at an argument by keyword.
    /// - [`ErrorKind::UndefinedError`] at an undefined value, where these may not be printed.
    /// - [`ErrorKind::NoFloats`] at a directive for floats: `%e`, `%g` and the same in upper case.
    /// - [`ErrorKind::InvalidOperation`] at another directive that is none, a width or a precision past 2^24, an argument of a wrong
    ///   kind, too few or too many arguments.
    /// - [`ErrorKind::OutOfMemory`]
    ///
    /// [`ErrorKind::TooManyArguments`]: template_values_errors::ErrorKind::TooManyArguments
    /// [`ErrorKind::UndefinedError`]: template_values_errors::ErrorKind::UndefinedError
    /// [`ErrorKind::NoFloats`]: template_values_errors::ErrorKind::NoFloats
    /// [`ErrorKind::InvalidOperation`]: template_values_errors::ErrorKind::InvalidOperation
    /// [`ErrorKind::OutOfMemory`]: template_values_errors::ErrorKind::OutOfMemory
    pub fn apply(
        self,
        alloc: Global,
        view: &CallView<'_>,
        value: &Value,
        arguments: &[Value],
    ) -> Result<Value, Error>
        ensures { Tells result (filters.format_filtered self (seen_in view.now) value.now arguments.now) }
    {
        match self {
            FormatFilter::Format => format(alloc, view, value, arguments),
        }
    }
}

#[tactic(auto, unfolding(crate::specs::Filters::format))]
fn format(
    alloc: Global,
    view: &CallView<'_>,
    value: &Value,
    arguments: &[Value],
) -> Result<Value, Error>
    ensures { Tells result (filters.format (seen_in view.now) value.now arguments.now) }
{
    let arguments = all_by_place(arguments)?;
    let text = printed(alloc, view, value)?;
    Value::from_text(formatted(alloc, view, text.as_str(), arguments)?)
}
