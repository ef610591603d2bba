//! The filters on numbers and on any value.
ghost use Rattle.template_builtins_arguments.specs.Answers.{Tells};
ghost use Rattle.template_builtins_numbers.specs.Filters as filters;
ghost use Rattle.template_callables.specs.Views.{seen_in};

use crate::numerals::{base_from, number_in};
use crate::values::{attribute_named, default_from, is_lacking, magnitude_of, start_from, summed};
use std::alloc::Global;
use template_builtins_arguments::{Arguments, items_of, truth_of};
use template_builtins_paths::path_from;
use template_callables::CallView;
use template_values_core::Value;
use template_values_errors::Error;

/// A filter on numbers, or on any value.
#[derive(Clone, Copy)]
pub enum ValueFilter {
    /// A default where the value is undefined, or false.
    Default,
    /// The number without its sign.
    Abs,
    /// The whole number that the value stands for in a base, else a default.
    Int,
    /// The sum of the items.
    Sum,
    /// Whether the value counts as true.
    Bool,
    /// The attribute of a name.
    Attr,
}

impl ValueFilter {
    /// What the filter makes of a value and the arguments after it. Linear in the number of items that are added, and elsewhere in
    /// the length of the arguments.
    ///
    /// # Errors
    ///
    /// - [`ErrorKind::TooManyArguments`], [`ErrorKind::MissingArgument`]
    /// - [`ErrorKind::UndefinedError`] at an undefined value, where what is asked of it is forbidden, and at a part of one.
    /// - [`ErrorKind::InvalidOperation`] at a value or an argument of a wrong kind, and where a number is out of range.
    /// - [`ErrorKind::OutOfMemory`]
    ///
    /// [`ErrorKind::TooManyArguments`]: template_values_errors::ErrorKind::TooManyArguments
    /// [`ErrorKind::MissingArgument`]: template_values_errors::ErrorKind::MissingArgument
    /// [`ErrorKind::UndefinedError`]: template_values_errors::ErrorKind::UndefinedError
    /// [`ErrorKind::InvalidOperation`]: template_values_errors::ErrorKind::InvalidOperation
    /// [`ErrorKind::OutOfMemory`]: template_values_errors::ErrorKind::OutOfMemory
    pub fn apply(
        self,
        alloc: Global,
        view: &CallView<'_>,
        value: &Value,
        arguments: &[Value],
    ) -> Result<Value, Error>
        ensures { Tells result (filters.value_filtered self (seen_in view.now) value.now arguments.now) }
    {
        match self {
            ValueFilter::Default => defaulted(alloc, view, value, arguments),
            ValueFilter::Abs => unsigned(value, arguments),
            ValueFilter::Int => whole(value, arguments),
            ValueFilter::Sum => total(alloc, view, value, arguments),
            ValueFilter::Bool => judged(view, value, arguments),
            ValueFilter::Attr => attribute(alloc, view, value, arguments),
        }
    }
}

#[tactic(auto, unfolding(crate::specs::Filters::defaulted))]
fn defaulted(
    alloc: Global,
    view: &CallView<'_>,
    value: &Value,
    arguments: &[Value],
) -> Result<Value, Error>
    ensures { Tells result (filters.defaulted (seen_in view.now) value.now arguments.now) }
{
    let given = Arguments::read(&["default_value", "boolean"], 0, arguments)?;
    let boolean = given.flag(view, 1, false)?;
    if is_lacking(view, boolean, value)? {
        default_from(alloc, given.at(0))
    } else {
        value.copy()
    }
}

#[tactic(auto, unfolding(crate::specs::Filters::unsigned))]
fn unsigned(value: &Value, arguments: &[Value]) -> Result<Value, Error>
    ensures { Tells result (filters.unsigned value.now arguments.now) }
{
    Arguments::read(&[], 0, arguments)?;
    magnitude_of(value)
}

#[tactic(auto, unfolding(crate::specs::Filters::whole))]
fn whole(value: &Value, arguments: &[Value]) -> Result<Value, Error>
    ensures { Tells result (filters.whole value.now arguments.now) }
{
    let given = Arguments::read(&["default", "base"], 0, arguments)?;
    let base = base_from(given.number(1, 10)?)?;
    match number_in(base, value) {
        Some(number) => Ok(Value::from_int(number)),
        None => start_from(given.at(0)),
    }
}

#[tactic(auto, unfolding(crate::specs::Filters::total))]
fn total(
    alloc: Global,
    view: &CallView<'_>,
    value: &Value,
    arguments: &[Value],
) -> Result<Value, Error>
    ensures { Tells result (filters.total (seen_in view.now) value.now arguments.now) }
{
    let given = Arguments::read(&["attribute", "start"], 0, arguments)?;
    let items = items_of(alloc, view, value)?;
    let path = path_from(given.at(0))?;
    let start = start_from(given.at(1))?;
    summed(alloc, view, path, start, items.as_slice())
}

#[tactic(auto, unfolding(crate::specs::Filters::judged))]
fn judged(view: &CallView<'_>, value: &Value, arguments: &[Value]) -> Result<Value, Error>
    ensures { Tells result (filters.judged (seen_in view.now) value.now arguments.now) }
{
    Arguments::read(&[], 0, arguments)?;
    Ok(Value::from_bool(truth_of(view, value)?))
}

#[tactic(auto, unfolding(crate::specs::Filters::attribute))]
fn attribute(
    alloc: Global,
    view: &CallView<'_>,
    value: &Value,
    arguments: &[Value],
) -> Result<Value, Error>
    ensures { Tells result (filters.attribute (seen_in view.now) value.now arguments.now) }
{
    let given = Arguments::read(&["name"], 1, arguments)?;
    let name = given.needed(0)?;
    attribute_named(alloc, view, value, name.as_str())
}
