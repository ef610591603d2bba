//! The filters on decimals and sizes.
ghost use Rattle.template_builtins_arguments.specs.Answers.{Tells};
ghost use Rattle.template_builtins_arguments.specs.Given.{given_by};
ghost use Rattle.template_builtins_decimals.specs.Filters as filters;
ghost use Rattle.template_callables.specs.Views.{seen_in};

use crate::rounding::{method_from, rounded_value};
use crate::sizes::size_text;
use std::alloc::Global;
use template_builtins_arguments::{Arguments, whole};
use template_callables::CallView;
use template_values_core::Value;
use template_values_errors::Error;

/// A filter on decimals or sizes.
#[derive(Clone, Copy)]
pub enum DecimalFilter {
    /// A number or a decimal to a number of places, by a method.
    Round,
    /// A number of bytes in the greatest unit that it reaches.
    FileSizeFormat,
}

impl DecimalFilter {
    /// What the filter makes of a value and the arguments after it. Linear in the length of the value's text, of the arguments and
    /// of the zeros that a precision below 0 puts in.
    ///
    /// # Errors
    ///
    /// - [`ErrorKind::TooManyArguments`], [`ErrorKind::MissingArgument`]
    /// - [`ErrorKind::UndefinedError`] at an undefined flag, where it may not be asked for its truth.
    /// - [`ErrorKind::InvalidOperation`] at a value or an argument of a wrong kind, and where a number is out of range.
    /// - [`ErrorKind::OutOfMemory`]
    ///
    /// [`ErrorKind::TooManyArguments`]: template_values_errors::ErrorKind::TooManyArguments
    /// [`ErrorKind::MissingArgument`]: template_values_errors::ErrorKind::MissingArgument
    /// [`ErrorKind::UndefinedError`]: template_values_errors::ErrorKind::UndefinedError
    /// [`ErrorKind::InvalidOperation`]: template_values_errors::ErrorKind::InvalidOperation
    /// [`ErrorKind::OutOfMemory`]: template_values_errors::ErrorKind::OutOfMemory
    pub fn apply(
        self,
        alloc: Global,
        view: &CallView<'_>,
        value: &Value,
        arguments: &[Value],
    ) -> Result<Value, Error>
        ensures { Tells result (filters.decimal_filtered self (seen_in view.now) value.now arguments.now) }
    {
        match self {
            DecimalFilter::Round => round(alloc, value, arguments),
            DecimalFilter::FileSizeFormat => file_size(alloc, view, value, arguments),
        }
    }
}

#[tactic(auto, unfolding(crate::specs::Filters::file_size))]
fn file_size(
    alloc: Global,
    view: &CallView<'_>,
    value: &Value,
    arguments: &[Value],
) -> Result<Value, Error>
    ensures { Tells result (filters.file_size (seen_in view.now) value.now arguments.now) }
{
    let given = Arguments::read(&["binary"], 0, arguments)?;
    let size = whole(value)?;
    size_by(alloc, view, given, size)
}

fn size_by(
    alloc: Global,
    view: &CallView<'_>,
    given: Arguments<'_>,
    size: i128,
) -> Result<Value, Error>
    ensures { Tells result (filters.size_by (seen_in view.now) (given_by given.entry) size) }
{
    let binary = given.flag(view, 0, false)?;
    Value::from_text(size_text(alloc, binary, size)?)
}

#[tactic(auto, unfolding(crate::specs::Filters::round))]
fn round(alloc: Global, value: &Value, arguments: &[Value]) -> Result<Value, Error>
    ensures { Tells result (filters.round value.now arguments.now) }
{
    let given = Arguments::read(&["precision", "method"], 0, arguments)?;
    let precision = given.number(0, 0)?;
    round_by(alloc, value, given, precision)
}

fn round_by(
    alloc: Global,
    value: &Value,
    given: Arguments<'_>,
    precision: i128,
) -> Result<Value, Error>
    ensures { Tells result (filters.round_by value.now (given_by given.entry) precision) }
{
    let method = method_from(given.at(1))?;
    rounded_value(alloc, method, precision, value)
}
