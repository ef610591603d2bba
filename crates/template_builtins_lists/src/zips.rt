//! The items of several values side by side.
ghost use Rattle.std.specs.Prelude.{◌≡◌, [], ◌++◌, ◌∷◌, IfErr, IfOk, fold, length, map, min, option_copied, option_to_list, slice_get};
ghost use Rattle.template_builtins_arguments.specs.Answers.{Tells, TellsAs};
ghost use Rattle.template_builtins_lists.specs.Zips as zips;
ghost use Rattle.template_callables.specs.Views.{seen_in};
ghost use Rattle.template_values_errors.specs.Memory.{NoMemory};

use crate::lists::{list_from, tuple_from};
use std::alloc::Global;
use template_builtins_arguments::items_of;
use template_callables::CallView;
use template_values_core::Value;
use template_values_errors::Error;

/// The items of a value and of others side by side, in tuples, as many as the shortest of them has. Linear in the number of all.
///
/// # Errors
///
/// Those of [`items_of`].
#[tactic(auto, unfolding(crate::specs::Zips::zipped_with))]
pub(crate) fn zipped_with(
    alloc: Global,
    view: &CallView<'_>,
    value: &Value,
    others: &[Value],
) -> Result<Value, Error>
    ensures { Tells result (zips.zipped_with (seen_in view.now) value.now others.now) }
{
    let lists = lists_of(alloc, view, value, others)?;
    let rows = rows_of(alloc, &lists)?;
    list_from(alloc, rows)
}

fn lists_of(
    alloc: Global,
    view: &CallView<'_>,
    value: &Value,
    others: &[Value],
) -> Result<Vec<Vec<Value>>, Error>
    ensures { TellsAs (λ lists. map (λ items. items.items) lists.items) result (zips.lists_of (seen_in view.now) (value.now ∷ others.now)) }
{
    let mut lists = Vec::new(alloc);
    lists.push(items_of(alloc, view, value)?)?;
    for other in others {
        lists.push(items_of(alloc, view, other)?)?;
    }
    Ok(lists)
}

fn rows_of(alloc: Global, lists: &[Vec<Value>]) -> Result<Vec<Value>, Error>
    ensures { TellsAs (λ rows. rows.items) result (zips.rows_of (map (λ items. items.items) lists.now)) }
{
    let count = shortest(lists);
    let mut rows = Vec::with_capacity(alloc, count)?;
    for k in 0..count {
        rows.push(tuple_at(alloc, lists, k)?)?;
    }
    Ok(rows)
}

fn shortest(lists: &[Vec<Value>]) -> usize
    ensures { result ≡ zips.shortest (map (λ items. items.items) lists.now) }
{
    match lists {
        [] => 0,
        [first, others @ ..] => shortest_after(first.len(), others),
    }
}

// The least of a length and those of these lists.
fn shortest_after(start: usize, lists: &[Vec<Value>]) -> usize
    ensures { result ≡ fold (λ n items. min n (length items)) start (map (λ items. items.items) lists.now) }
{
    let mut least = start;
    for items in lists {
        least = least.min(items.len());
    }
    least
}

#[tactic(auto, unfolding(crate::specs::Zips::tuple_at))]
fn tuple_at(alloc: Global, lists: &[Vec<Value>], k: usize) -> Result<Value, Error>
    ensures { Tells result (zips.tuple_at (map (λ items. items.items) lists.now) k) }
{
    tuple_from(alloc, row_at(alloc, lists, k)?)
}

fn row_at(alloc: Global, lists: &[Vec<Value>], k: usize) -> Result<Vec<Value>, Error>
    ensures made { IfOk result (λ row. row.items ≡ zips.row_at (map (λ items. items.items) lists.now) k) }
    ensures refused { IfErr result NoMemory }
{
    let mut row = Vec::with_capacity(alloc, lists.len())?;
    for items in lists {
        row = with_item(row, items.as_slice(), k)?;
    }
    Ok(row)
}

// The row with the item of a number behind it, if there is one.
fn with_item(row: Vec<Value>, items: &[Value], k: usize) -> Result<Vec<Value>, Error>
    ensures made { IfOk result (λ whole. whole.items ≡ row.items ++ option_to_list (slice_get items.now k)) }
    ensures refused { IfErr result NoMemory }
{
    match item_at(items, k) {
        Some(item) => with_copy(row, item),
        None => Ok(row),
    }
}

fn item_at(items: &[Value], k: usize) -> Option<&Value>
    ensures { option_copied result ≡ slice_get items.now k }
{
    items.get(k)
}

fn with_copy(row: Vec<Value>, item: &Value) -> Result<Vec<Value>, Error>
    ensures made { IfOk result (λ whole. whole.items ≡ row.items ++ item.now ∷ []) }
    ensures refused { IfErr result NoMemory }
{
    let mut whole = row;
    whole.push(item.copy()?)?;
    Ok(whole)
}
