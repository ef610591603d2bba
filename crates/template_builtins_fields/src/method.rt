//! Python's method of texts that fills fields in.
ghost use Rattle.template_builtins_arguments.specs.Answers.{Tells};
ghost use Rattle.template_builtins_fields.specs.Answers.{field_made};
ghost use Rattle.template_callables.specs.Views.{seen_in};

use crate::formats::format;
use std::alloc::Global;
use template_callables::CallView;
use template_values_core::Value;
use template_values_errors::Error;

/// Python's methods of texts that fill fields in.
#[derive(Clone, Copy)]
pub enum FieldMethod {
    /// The text with arguments in the places of its fields: `{}`, `{0}` or `{name}`, each with a layout behind a colon where one is
    /// given. `{{` and `}}` are braces.
    Format,
}

impl FieldMethod {
    /// What the method makes of a text and the arguments after it: a plain text. Linear in the text, in what is put in and in the
    /// widths of the fields.
    ///
    /// # Errors
    ///
    /// - [`ErrorKind::InvalidOperation`], if the value is no text, a brace stands alone, a field has no argument, a layout is not as
    ///   it may be or not one for the argument, or places are counted both by number and by turn.
    /// - [`ErrorKind::UndefinedError`] at an undefined argument, where these may not be printed.
    /// - [`ErrorKind::OutOfMemory`]
    ///
    /// [`ErrorKind::InvalidOperation`]: template_values_errors::ErrorKind::InvalidOperation
    /// [`ErrorKind::UndefinedError`]: template_values_errors::ErrorKind::UndefinedError
    /// [`ErrorKind::OutOfMemory`]: template_values_errors::ErrorKind::OutOfMemory
    pub fn apply(
        self,
        alloc: Global,
        view: &CallView<'_>,
        value: &Value,
        arguments: &[Value],
    ) -> Result<Value, Error>
        ensures { Tells result (field_made self (seen_in view.now) value.now arguments.now) }
    {
        match self {
            FieldMethod::Format => format(alloc, view, value, arguments),
        }
    }
}
