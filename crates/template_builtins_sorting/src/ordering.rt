//! Items in order, those that differ, the least and the greatest.
ghost use Rattle.std.specs.Prelude.{◌≡◌, IfErr, IfOk, map};
ghost use Rattle.template_values_errors.specs.Memory.{NoMemory};
ghost use Rattle.template_builtins_arguments.specs.Answers.{Tells, TellsAs};
ghost use Rattle.template_builtins_arguments.specs.Given.{given_by};
ghost use Rattle.template_builtins_sorting.specs.Filters as filters;
ghost use Rattle.template_builtins_sorting.specs.Sorted.{listed_in_order};
ghost use Rattle.template_callables.specs.Views.{seen_in};

use crate::alike::distinct_items;
use crate::attributes::{one_path, several_paths};
use crate::keyed::{Keyed, first_keyed, sort_keyed};
use crate::keys::keyed;
use std::alloc::Global;
use template_builtins_arguments::{Arguments, items_of};
use template_callables::CallView;
use template_values_core::Value;
use template_values_errors::Error;
use template_values_operators::kinds::list_made;

/// The items in the order of their keys. Takes n log n comparisons for n items.
///
/// # Errors
///
/// Those of [`SortingFilter::apply`](crate::SortingFilter::apply).
#[tactic(auto, unfolding(crate::specs::Filters::sorted))]
pub fn sort(
    alloc: Global,
    view: &CallView<'_>,
    value: &Value,
    arguments: &[Value],
) -> Result<Value, Error>
    ensures { Tells result (filters.sorted (seen_in view.now) value.now arguments.now) }
{
    let arguments = Arguments::read(&["reverse", "case_sensitive", "attribute"], 0, arguments)?;
    let items = items_of(alloc, view, value)?;
    sort_items(alloc, view, &arguments, items.as_slice())
}

#[tactic(auto, unfolding(crate::specs::Filters::sorted_items))]
fn sort_items(
    alloc: Global,
    view: &CallView<'_>,
    arguments: &Arguments<'_>,
    items: &[Value],
) -> Result<Value, Error>
    ensures { Tells result (filters.sorted_items (seen_in view.now) (given_by arguments.now) items.now) }
{
    let is_reversed = arguments.flag(view, 0, false)?;
    let keyed = keyed_by_several(alloc, view, arguments, items)?;
    listed_in_order(alloc, keyed, is_reversed)
}

/// The list of the items in the order of their keys, or in the reverse order. Takes n log n comparisons for n items.
///
/// # Errors
///
/// - [`ErrorKind::InvalidOperation`](template_values_errors::ErrorKind::InvalidOperation), if the list would nest too deep.
/// - [`ErrorKind::OutOfMemory`](template_values_errors::ErrorKind::OutOfMemory)
#[tactic(auto, unfolding(crate::specs::Sorted::listed_in_order))]
pub fn listed_in_order(alloc: Global, keyed: Vec<Keyed>, is_reversed: bool) -> Result<Value, Error>
    ensures { Tells result (listed_in_order is_reversed keyed.items) }
{
    let sorted = sort_keyed(keyed, is_reversed)?;
    list_made(alloc, items_in(alloc, sorted)?)
}

#[tactic(auto, unfolding(crate::specs::Filters::keyed_by_several))]
fn keyed_by_several(
    alloc: Global,
    view: &CallView<'_>,
    arguments: &Arguments<'_>,
    items: &[Value],
) -> Result<Vec<Keyed>, Error>
    ensures { TellsAs (λ v. v.items) result (filters.keyed_by_several (seen_in view.now) (given_by arguments.now) items.now) }
{
    let is_cased = arguments.flag(view, 1, false)?;
    let paths = several_paths(alloc, arguments.at(2))?;
    keyed(alloc, view, paths.as_slice(), None, is_cased, items)
}

/// The items whose keys are not equal to one before them. Takes n log n comparisons for n items.
///
/// # Errors
///
/// Those of [`SortingFilter::apply`](crate::SortingFilter::apply).
#[tactic(auto, unfolding(crate::specs::Filters::unique))]
pub fn unique(
    alloc: Global,
    view: &CallView<'_>,
    value: &Value,
    arguments: &[Value],
) -> Result<Value, Error>
    ensures { Tells result (filters.unique (seen_in view.now) value.now arguments.now) }
{
    let keyed = keyed_items(alloc, view, value, arguments)?;
    list_made(alloc, distinct_items(alloc, keyed.as_slice())?)
}

/// The first item of the least key. Linear.
///
/// # Errors
///
/// Those of [`SortingFilter::apply`](crate::SortingFilter::apply).
#[tactic(auto, unfolding(crate::specs::Filters::least))]
pub fn least(
    alloc: Global,
    view: &CallView<'_>,
    value: &Value,
    arguments: &[Value],
) -> Result<Value, Error>
    ensures { Tells result (filters.least (seen_in view.now) value.now arguments.now) }
{
    let keyed = keyed_items(alloc, view, value, arguments)?;
    Ok(item_or_undefined(first_keyed(keyed, false)))
}

/// The first item of the greatest key. Linear.
///
/// # Errors
///
/// Those of [`SortingFilter::apply`](crate::SortingFilter::apply).
#[tactic(auto, unfolding(crate::specs::Filters::greatest))]
pub fn greatest(
    alloc: Global,
    view: &CallView<'_>,
    value: &Value,
    arguments: &[Value],
) -> Result<Value, Error>
    ensures { Tells result (filters.greatest (seen_in view.now) value.now arguments.now) }
{
    let keyed = keyed_items(alloc, view, value, arguments)?;
    Ok(item_or_undefined(first_keyed(keyed, true)))
}

#[tactic(auto, unfolding(crate::specs::Filters::keyed_items))]
fn keyed_items(
    alloc: Global,
    view: &CallView<'_>,
    value: &Value,
    arguments: &[Value],
) -> Result<Vec<Keyed>, Error>
    ensures { TellsAs (λ v. v.items) result (filters.keyed_items (seen_in view.now) value.now arguments.now) }
{
    let arguments = Arguments::read(&["case_sensitive", "attribute"], 0, arguments)?;
    let items = items_of(alloc, view, value)?;
    keyed_by_one(alloc, view, &arguments, items.as_slice())
}

#[tactic(auto, unfolding(crate::specs::Filters::keyed_by_one))]
fn keyed_by_one(
    alloc: Global,
    view: &CallView<'_>,
    arguments: &Arguments<'_>,
    items: &[Value],
) -> Result<Vec<Keyed>, Error>
    ensures { TellsAs (λ v. v.items) result (filters.keyed_by_one (seen_in view.now) (given_by arguments.now) items.now) }
{
    let is_cased = arguments.flag(view, 0, false)?;
    let paths = one_path(alloc, arguments.at(1))?;
    keyed(alloc, view, paths.as_slice(), None, is_cased, items)
}

fn item_or_undefined(keyed: Option<Keyed>) -> Value
    ensures { result ≡ filters.item_or_undefined keyed }
{
    match keyed {
        Some(keyed) => keyed.item,
        None => Value::undefined(),
    }
}

fn items_in(alloc: Global, keyed: Vec<Keyed>) -> Result<Vec<Value>, Error>
    ensures items { IfOk result (λ v. v.items ≡ map (λ k. k.item) keyed.items) }
    ensures refused { IfErr result NoMemory }
{
    let mut items = Vec::with_capacity(alloc, keyed.len())?;
    for keyed in keyed {
        items.push(keyed.item)?;
    }
    Ok(items)
}
