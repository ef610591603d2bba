//! The filters that go by an order.
ghost use Rattle.template_builtins_arguments.specs.Answers.{Tells};
ghost use Rattle.template_builtins_sorting.specs.Filters.{sorting_filtered};
ghost use Rattle.template_callables.specs.Views.{seen_in};

use crate::groups::group;
use crate::ordering::{greatest, least, sort, unique};
use crate::pairs::sort_map;
use std::alloc::Global;
use template_callables::CallView;
use template_values_core::Value;
use template_values_errors::Error;

/// The filters that go by an order. By `case_sensitive` texts are compared as they are, else by their lower case; by `attribute` the
/// parts of the items at that path are compared. Each takes n log n comparisons for n items, but `Min` and `Max` take n.
#[derive(Clone, Copy)]
pub enum SortingFilter {
    /// The items in order, by `reverse` in the reverse order; equal ones stay in their order. Its `attribute` may name several paths
    /// with commas between.
    Sort,
    /// The items that are not equal to one before them.
    Unique,
    /// The least item, the first of equal ones; undefined where there is none.
    Min,
    /// The greatest item, the first of equal ones; undefined where there is none.
    Max,
    /// The pairs of a map as tuples, in the order of its keys, or `by="value"` of its values; by `reverse` in the reverse order.
    DictSort,
    /// For the items of each part at `attribute` a tuple of the first one's part and the list of them, in the order of the parts.
    GroupBy,
}

impl SortingFilter {
    /// What the filter makes of a value and the arguments after it.
    ///
    /// # Errors
    ///
    /// - [`ErrorKind::TooManyArguments`] and [`ErrorKind::MissingArgument`], as the parameters say.
    /// - [`ErrorKind::UndefinedError`] at an undefined value that may not be used so, and at a part of one.
    /// - [`ErrorKind::InvalidOperation`] at a value that has no items (or is no map, where one is wanted), at an attribute that is no path,
    ///   at another word than `key` or `value`, and where a result would nest too deep.
    /// - [`ErrorKind::OutOfMemory`]
    ///
    /// [`ErrorKind::TooManyArguments`]: template_values_errors::ErrorKind::TooManyArguments
    /// [`ErrorKind::MissingArgument`]: template_values_errors::ErrorKind::MissingArgument
    /// [`ErrorKind::UndefinedError`]: template_values_errors::ErrorKind::UndefinedError
    /// [`ErrorKind::InvalidOperation`]: template_values_errors::ErrorKind::InvalidOperation
    /// [`ErrorKind::OutOfMemory`]: template_values_errors::ErrorKind::OutOfMemory
    pub fn apply(
        self,
        alloc: Global,
        view: &CallView<'_>,
        value: &Value,
        arguments: &[Value],
    ) -> Result<Value, Error>
        ensures { Tells result (sorting_filtered self (seen_in view.now) value.now arguments.now) }
    {
        match self {
            SortingFilter::Sort => sort(alloc, view, value, arguments),
            SortingFilter::Unique => unique(alloc, view, value, arguments),
            SortingFilter::Min => least(alloc, view, value, arguments),
            SortingFilter::Max => greatest(alloc, view, value, arguments),
            SortingFilter::DictSort => sort_map(alloc, view, value, arguments),
            SortingFilter::GroupBy => group(alloc, view, value, arguments),
        }
    }
}
