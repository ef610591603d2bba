//! The filters on lists.
ghost use Rattle.template_builtins_arguments.specs.Answers.{Tells};
ghost use Rattle.template_builtins_lists.specs.Filters as filters;
ghost use Rattle.template_callables.specs.Views.{seen_in};

use crate::chains::{all_by_place, with_items_of_all};
use crate::counts::count_of;
use crate::joins::{joined, printable};
use crate::lines::{batched, count_from, sliced};
use crate::lists::{first_of, last_of, list_from, pairs_of_map, reversed};
use crate::zips::zipped_with;
use std::alloc::Global;
use template_builtins_arguments::{Arguments, items_of};
use template_builtins_paths::{parts_at, path_from};
use template_callables::CallView;
use template_values_core::Value;
use template_values_errors::Error;

/// A filter on lists.
#[derive(Clone, Copy)]
pub enum ListFilter {
    /// How many items there are; of bytes how many bytes.
    Length,
    /// The items.
    List,
    /// The first item; undefined where there is none.
    First,
    /// The last item; undefined where there is none.
    Last,
    /// The items the other way; of a text its characters as a text.
    Reverse,
    /// The printed forms of the items with a text between them.
    Join,
    /// The pairs of a map as tuples.
    Items,
    /// The items in lists of so many.
    Batch,
    /// The items in so many lists.
    Slice,
    /// Tuples of the items of the value and of the arguments, side by side.
    Zip,
    /// The items of the value, and those of the arguments behind them.
    Chain,
}

impl ListFilter {
    /// What the filter makes of a value and the arguments after it. Linear in the number of items, of those that are filled in and
    /// of the lists that are made, and in the length of what is printed.
    ///
    /// # Errors
    ///
    /// - [`ErrorKind::TooManyArguments`], [`ErrorKind::MissingArgument`]
    /// - [`ErrorKind::UndefinedError`] at an undefined value, where these may be neither printed nor gone over, and at a part of one.
    /// - [`ErrorKind::InvalidOperation`] at a value or an argument of a wrong kind.
    /// - [`ErrorKind::OutOfMemory`]
    ///
    /// [`ErrorKind::TooManyArguments`]: template_values_errors::ErrorKind::TooManyArguments
    /// [`ErrorKind::MissingArgument`]: template_values_errors::ErrorKind::MissingArgument
    /// [`ErrorKind::UndefinedError`]: template_values_errors::ErrorKind::UndefinedError
    /// [`ErrorKind::InvalidOperation`]: template_values_errors::ErrorKind::InvalidOperation
    /// [`ErrorKind::OutOfMemory`]: template_values_errors::ErrorKind::OutOfMemory
    pub fn apply(
        self,
        alloc: Global,
        view: &CallView<'_>,
        value: &Value,
        arguments: &[Value],
    ) -> Result<Value, Error>
        ensures { Tells result (filters.list_filtered self (seen_in view.now) value.now arguments.now) }
    {
        match self {
            ListFilter::Length => counted(alloc, view, value, arguments),
            ListFilter::List => listed(alloc, view, value, arguments),
            ListFilter::First => first(alloc, view, value, arguments),
            ListFilter::Last => last(alloc, view, value, arguments),
            ListFilter::Reverse => turned(alloc, view, value, arguments),
            ListFilter::Join => joining(alloc, view, value, arguments),
            ListFilter::Items => pairs(alloc, view, value, arguments),
            ListFilter::Batch => batches(alloc, view, value, arguments),
            ListFilter::Slice => slices(alloc, view, value, arguments),
            ListFilter::Zip => zipped(alloc, view, value, arguments),
            ListFilter::Chain => chained(alloc, view, value, arguments),
        }
    }
}

#[tactic(auto, unfolding(crate::specs::Filters::counted))]
fn counted(
    alloc: Global,
    view: &CallView<'_>,
    value: &Value,
    arguments: &[Value],
) -> Result<Value, Error>
    ensures { Tells result (filters.counted (seen_in view.now) value.now arguments.now) }
{
    Arguments::read(&[], 0, arguments)?;
    let count = count_of(alloc, view, value)?;
    Ok(Value::from_int(count as i128))
}

#[tactic(auto, unfolding(crate::specs::Filters::listed))]
fn listed(
    alloc: Global,
    view: &CallView<'_>,
    value: &Value,
    arguments: &[Value],
) -> Result<Value, Error>
    ensures { Tells result (filters.listed (seen_in view.now) value.now arguments.now) }
{
    Arguments::read(&[], 0, arguments)?;
    let items = items_of(alloc, view, value)?;
    list_from(alloc, items)
}

#[tactic(auto, unfolding(crate::specs::Filters::first))]
fn first(
    alloc: Global,
    view: &CallView<'_>,
    value: &Value,
    arguments: &[Value],
) -> Result<Value, Error>
    ensures { Tells result (filters.first (seen_in view.now) value.now arguments.now) }
{
    Arguments::read(&[], 0, arguments)?;
    let items = items_of(alloc, view, value)?;
    first_of(items.as_slice())
}

#[tactic(auto, unfolding(crate::specs::Filters::last))]
fn last(
    alloc: Global,
    view: &CallView<'_>,
    value: &Value,
    arguments: &[Value],
) -> Result<Value, Error>
    ensures { Tells result (filters.last (seen_in view.now) value.now arguments.now) }
{
    Arguments::read(&[], 0, arguments)?;
    let items = items_of(alloc, view, value)?;
    last_of(items.as_slice())
}

#[tactic(auto, unfolding(crate::specs::Filters::turned))]
fn turned(
    alloc: Global,
    view: &CallView<'_>,
    value: &Value,
    arguments: &[Value],
) -> Result<Value, Error>
    ensures { Tells result (filters.turned (seen_in view.now) value.now arguments.now) }
{
    Arguments::read(&[], 0, arguments)?;
    reversed(alloc, view, value)
}

#[tactic(auto, unfolding(crate::specs::Filters::joining))]
fn joining(
    alloc: Global,
    view: &CallView<'_>,
    value: &Value,
    arguments: &[Value],
) -> Result<Value, Error>
    ensures { Tells result (filters.joining (seen_in view.now) value.now arguments.now) }
{
    let given = Arguments::read(&["d", "attribute"], 0, arguments)?;
    let items = items_of(alloc, view, value)?;
    printable(alloc, view, given.at(0))?;
    let path = path_from(given.at(1))?;
    let parts = parts_at(alloc, view, path, items)?;
    joined(alloc, view, given.at(0), parts.as_slice())
}

#[tactic(auto, unfolding(crate::specs::Filters::pairs))]
fn pairs(
    alloc: Global,
    view: &CallView<'_>,
    value: &Value,
    arguments: &[Value],
) -> Result<Value, Error>
    ensures { Tells result (filters.pairs (seen_in view.now) value.now arguments.now) }
{
    Arguments::read(&[], 0, arguments)?;
    pairs_of_map(alloc, view, value)
}

#[tactic(auto, unfolding(crate::specs::Filters::chained))]
fn chained(
    alloc: Global,
    view: &CallView<'_>,
    value: &Value,
    arguments: &[Value],
) -> Result<Value, Error>
    ensures { Tells result (filters.chained (seen_in view.now) value.now arguments.now) }
{
    let others = all_by_place(arguments)?;
    let items = items_of(alloc, view, value)?;
    let whole = with_items_of_all(alloc, view, others, items)?;
    list_from(alloc, whole)
}

#[tactic(auto, unfolding(crate::specs::Filters::zipped))]
fn zipped(
    alloc: Global,
    view: &CallView<'_>,
    value: &Value,
    arguments: &[Value],
) -> Result<Value, Error>
    ensures { Tells result (filters.zipped (seen_in view.now) value.now arguments.now) }
{
    let others = all_by_place(arguments)?;
    zipped_with(alloc, view, value, others)
}

#[tactic(auto, unfolding(crate::specs::Filters::batches))]
fn batches(
    alloc: Global,
    view: &CallView<'_>,
    value: &Value,
    arguments: &[Value],
) -> Result<Value, Error>
    ensures { Tells result (filters.batches (seen_in view.now) value.now arguments.now) }
{
    let given = Arguments::read(&["linecount", "fill_with"], 1, arguments)?;
    let items = items_of(alloc, view, value)?;
    let count = count_from(&given, 0)?;
    batched(alloc, count, given.at(1), items.as_slice())
}

#[tactic(auto, unfolding(crate::specs::Filters::slices))]
fn slices(
    alloc: Global,
    view: &CallView<'_>,
    value: &Value,
    arguments: &[Value],
) -> Result<Value, Error>
    ensures { Tells result (filters.slices (seen_in view.now) value.now arguments.now) }
{
    let given = Arguments::read(&["slices", "fill_with"], 1, arguments)?;
    let items = items_of(alloc, view, value)?;
    let count = count_from(&given, 0)?;
    sliced(alloc, count, given.at(1), items.as_slice())
}
