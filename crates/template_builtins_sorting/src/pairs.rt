//! The pairs of a map, in the order of its keys or values.
ghost use Rattle.std.specs.Prelude.{◌≡◌, option_copied};
ghost use Rattle.template_values_core.specs.Answers.{text_in};
ghost use Rattle.template_values_core.specs.Shape.{pairs_in};
ghost use Rattle.template_builtins_arguments.specs.Answers.{Tells, TellsAs};
ghost use Rattle.template_builtins_arguments.specs.Given.{given_by};
ghost use Rattle.template_builtins_arguments.specs.Parts as parts;
ghost use Rattle.template_builtins_sorting.specs.Keys.{each};
ghost use Rattle.template_builtins_sorting.specs.Pairs as pairs;
ghost use Rattle.template_callables.specs.Views.{seen_in};

use crate::keyed::Keyed;
use crate::keys::{folded, pair};
use crate::ordering::listed_in_order;
use std::alloc::Global;
use template_builtins_arguments::{Arguments, is_loud, refusal};
use template_callables::CallView;
use template_values_core::{Entry, Value};
use template_values_errors::{Error, ErrorKind, UndefinedBehavior};

/// The pairs of a map as tuples, in the order of its keys or values. Takes n log n comparisons for n pairs.
///
/// # Errors
///
/// Those of [`SortingFilter::apply`](crate::SortingFilter::apply).
#[tactic(auto, unfolding(crate::specs::Pairs::sorted_map))]
pub fn sort_map(
    alloc: Global,
    view: &CallView<'_>,
    value: &Value,
    arguments: &[Value],
) -> Result<Value, Error>
    ensures { Tells result (pairs.sorted_map (seen_in view.now) value.now arguments.now) }
{
    let arguments = Arguments::read(&["case_sensitive", "by", "reverse"], 0, arguments)?;
    let entries = entries_of(view, value)?;
    sort_entries(alloc, view, &arguments, entries)
}

// The entries of a map, keyword map or module.
#[tactic(auto, using(crate::proofs::Entries::listed), unfolding(crate::specs::Pairs::pairs_of_map))]
fn entries_of<'a>(view: &CallView<'_>, value: &'a Value) -> Result<&'a [Entry], Error>
    ensures { TellsAs (λ entries. pairs_in entries.now) result (pairs.pairs_of_map (seen_in view.now) value.entry.now) }
{
    if is_half_strict(view.undefined_behavior()) && is_loud(value) {
        return Err(Error::new(ErrorKind::UndefinedError));
    }
    match value.entries() {
        Some(entries) => Ok(entries),
        None => refusal(),
    }
}

fn is_half_strict(mode: UndefinedBehavior) -> bool
    ensures { result ≡ parts.is_half_strict mode }
{
    match mode {
        UndefinedBehavior::SemiStrict | UndefinedBehavior::Strict => true,
        UndefinedBehavior::Lenient | UndefinedBehavior::Chainable => false,
    }
}

#[tactic(auto, unfolding(crate::specs::Pairs::sorted_pairs))]
fn sort_entries(
    alloc: Global,
    view: &CallView<'_>,
    arguments: &Arguments<'_>,
    entries: &[Entry],
) -> Result<Value, Error>
    ensures { Tells result (pairs.sorted_pairs (seen_in view.now) (given_by arguments.now) (pairs_in entries.now)) }
{
    let is_cased = arguments.flag(view, 0, false)?;
    let by_value = by_value_from(arguments.at(1))?;
    turn_entries(alloc, view, arguments, by_value, is_cased, entries)
}

#[tactic(auto, unfolding(crate::specs::Pairs::turned_pairs))]
fn turn_entries(
    alloc: Global,
    view: &CallView<'_>,
    arguments: &Arguments<'_>,
    by_value: bool,
    is_cased: bool,
    entries: &[Entry],
) -> Result<Value, Error>
    ensures { Tells result
        (pairs.turned_pairs (seen_in view.now) (given_by arguments.now) by_value is_cased (pairs_in entries.now)) }
{
    let is_reversed = arguments.flag(view, 2, false)?;
    let keyed = keyed_pairs(alloc, by_value, is_cased, entries)?;
    listed_in_order(alloc, keyed, is_reversed)
}

// Whether the word says that values are compared, and not keys.
fn by_value_from(by: Option<&Value>) -> Result<bool, Error>
    ensures { Tells result (pairs.by_value_from (option_copied by.entry)) }
{
    match by {
        Some(by) => is_by_value(by.as_str()),
        None => Ok(false),
    }
}

fn is_by_value(word: Option<&str>) -> Result<bool, Error>
    ensures { Tells result (pairs.is_by_value (option_copied word.entry)) }
{
    match word {
        Some("value") => Ok(true),
        Some("key") => Ok(false),
        _ => refusal(),
    }
}

#[tactic(auto, using(crate::proofs::Steps::in_turn, crate::proofs::Entries::in_turn))]
fn keyed_pairs(
    alloc: Global,
    by_value: bool,
    is_cased: bool,
    entries: &[Entry],
) -> Result<Vec<Keyed>, Error>
    ensures { TellsAs (λ v. v.items) result (each (pairs.keyed_pair by_value is_cased) (pairs_in entries.now)) }
{
    let mut keyed = Vec::new(alloc);
    for entry in entries {
        keyed.push(keyed_pair(alloc, by_value, is_cased, entry)?)?;
    }
    Ok(keyed)
}

#[tactic(auto, unfolding(crate::specs::Pairs::keyed_pair))]
fn keyed_pair(alloc: Global, by_value: bool, is_cased: bool, entry: &Entry) -> Result<Keyed, Error>
    ensures { Tells result (pairs.keyed_pair by_value is_cased (entry.now.key, entry.now.value)) }
{
    let item = pair(alloc, &entry.key, &entry.value)?;
    let compared = if by_value { &entry.value } else { &entry.key };
    let key = folded(alloc, is_cased, compared)?;
    Ok(Keyed { key, item })
}
