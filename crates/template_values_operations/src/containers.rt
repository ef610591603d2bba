//! Lists, tuples and maps that are built of values.
ghost use Rattle.template_values_model.specs.Gives.{Gives};
ghost use Rattle.template_values_core.specs.Shape.{pairs_in};
ghost use Rattle.template_values_operators.specs.Kinds.{list_made};
ghost use Rattle.template_compiler_walk.specs.Containers.{tuple_made, map_made};

use std::alloc::Global;
use template_values_core::{Entry, Value};
use template_values_errors::Error;

/// The list of the items, which are moved into it. Linear in their number.
///
/// # Errors
///
/// [`ErrorKind::InvalidOperation`], if it would nest deeper than any value may;
/// [`ErrorKind::OutOfMemory`].
///
/// [`ErrorKind::InvalidOperation`]: template_values_errors::ErrorKind::InvalidOperation
/// [`ErrorKind::OutOfMemory`]: template_values_errors::ErrorKind::OutOfMemory
pub fn make_list(alloc: Global, items: Vec<Value>) -> Result<Value, Error>
    ensures { Gives result (list_made items.items) }
{
    Value::from_list(alloc, items)
}

/// The tuple of the items, which are moved into it. Linear in their number.
///
/// # Errors
///
/// As [`make_list`].
pub fn make_tuple(alloc: Global, items: Vec<Value>) -> Result<Value, Error>
    ensures { Gives result (tuple_made items.items) }
{
    Value::from_tuple(alloc, items)
}

/// The map of the entries, in the order of their keys: of equal keys the first stays, with the last
/// one's value. Takes n log n comparisons for n entries, and n where they are in order.
///
/// # Errors
///
/// As [`make_list`].
pub fn make_map(alloc: Global, entries: Vec<Entry>) -> Result<Value, Error>
    ensures { Gives result (map_made (pairs_in entries.items)) }
{
    Value::from_map(alloc, entries)
}
