//! Containers that are built of values.
ghost use Rattle.template_values_model.specs.Gives.{Gives};
ghost use Rattle.template_values_core.specs.Shape.{pairs_in};
ghost use Rattle.template_values_operators.specs.Kinds.{list_made};
ghost use Rattle.template_compiler_walk.specs.Containers.{tuple_made, map_made, kwargs_made};
ghost use Rattle.template_machine_meaning.specs.Replies.{kinded};
ghost use Rattle.template_machine_operations.specs.Answers.{Answers};

use std::alloc::Global;
use template_values_core::{Entry, Value};
use template_values_errors::Error;
use template_values_operations::{make_list, make_map, make_tuple};

/// The list of the items, which are moved into it. Linear in their number.
///
/// # Errors
///
/// [`ErrorKind::InvalidOperation`], if it would nest deeper than any value may;
/// [`ErrorKind::OutOfMemory`].
///
/// [`ErrorKind::InvalidOperation`]: template_values_errors::ErrorKind::InvalidOperation
/// [`ErrorKind::OutOfMemory`]: template_values_errors::ErrorKind::OutOfMemory
pub fn build_list(alloc: Global, items: Vec<Value>) -> Result<Value, Error>
    ensures { Answers result (kinded (list_made items.items)) }
{
    make_list(alloc, items)
}

/// The tuple of the items, which are moved into it. Linear in their number.
///
/// # Errors
///
/// As [`build_list`].
pub fn build_tuple(alloc: Global, items: Vec<Value>) -> Result<Value, Error>
    ensures { Answers result (kinded (tuple_made items.items)) }
{
    make_tuple(alloc, items)
}

/// The map of the entries: of equal keys the first stays, with the last one's value. Takes n log n
/// comparisons for n entries, and n where they are in order.
///
/// # Errors
///
/// As [`build_list`].
pub fn build_map(alloc: Global, entries: Vec<Entry>) -> Result<Value, Error>
    ensures { Answers result (kinded (map_made (pairs_in entries.items))) }
{
    make_map(alloc, entries)
}

/// The keyword arguments of the entries, whose keys are their names, kept as [`build_map`] does.
///
/// # Errors
///
/// As [`build_list`].
pub fn build_kwargs(alloc: Global, entries: Vec<Entry>) -> Result<Value, Error>
    ensures { Answers result (kinded (kwargs_made (pairs_in entries.items))) }
{
    make_kwargs(alloc, entries)
}

fn make_kwargs(alloc: Global, entries: Vec<Entry>) -> Result<Value, Error>
    ensures { Gives result (kwargs_made (pairs_in entries.items)) }
{
    Value::from_kwargs(alloc, entries)
}
