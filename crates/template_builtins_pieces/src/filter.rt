//! The filters that cut texts.
ghost use Rattle.template_builtins_arguments.specs.Answers.{Tells};
ghost use Rattle.template_builtins_pieces.specs.Answers.{piece_filtered};
ghost use Rattle.template_callables.specs.Views.{seen_in};

use crate::splitting;
use std::alloc::Global;
use template_callables::CallView;
use template_values_core::Value;
use template_values_errors::Error;

/// The filters that cut texts.
#[derive(Clone, Copy)]
pub enum PieceFilter {
    /// A list of the pieces between separators, or of the words.
    Split,
}

impl PieceFilter {
    /// What the filter makes of a value and the arguments after it. Linear in the text.
    ///
    /// # Errors
    ///
    /// - [`ErrorKind::TooManyArguments`], by the arguments that the filter has.
    /// - Then, from the value on: [`ErrorKind::UndefinedError`] at an undefined value, where these may not be printed, and
    ///   [`ErrorKind::InvalidOperation`] at a record, an empty separator, or a number of cuts that is no whole number.
    /// - [`ErrorKind::OutOfMemory`]
    ///
    /// [`ErrorKind::TooManyArguments`]: template_values_errors::ErrorKind::TooManyArguments
    /// [`ErrorKind::UndefinedError`]: template_values_errors::ErrorKind::UndefinedError
    /// [`ErrorKind::InvalidOperation`]: template_values_errors::ErrorKind::InvalidOperation
    /// [`ErrorKind::OutOfMemory`]: template_values_errors::ErrorKind::OutOfMemory
    pub fn apply(
        self,
        alloc: Global,
        view: &CallView<'_>,
        value: &Value,
        arguments: &[Value],
    ) -> Result<Value, Error>
        ensures { Tells result (piece_filtered self (seen_in view.now) value.now arguments.now) }
    {
        match self {
            PieceFilter::Split => splitting::split_filter(alloc, view, value, arguments),
        }
    }
}
