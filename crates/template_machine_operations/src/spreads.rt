//! What spreads pass: the items of values, one behind the other, and the entries of maps as one keyword map.
ghost use Rattle.std.specs.Prelude.{◌≡◌, option_map};
ghost use Rattle.template_values_operators.specs.Iterated.{items_given, iterated};
ghost use Rattle.template_machine_meaning.specs.Replies.{guarded, kinded};
ghost use Rattle.template_machine_meaning.specs.Spreads.{entries_held, entries_of_each, entries_or_refused, items_of_each, merged_keywords};
ghost use Rattle.template_machine_meaning.specs.Undefined.{forbids_iterating};
ghost use Rattle.template_values_core.specs.Shape.{pairs_in};
ghost use Rattle.template_machine_operations.specs.Answers.{Adds, Answers};
ghost use Rattle.template_machine_operations.specs.Entries.{entries_given};

use crate::containers::build_kwargs;
use crate::dicts::push_copies;
use crate::undefined as undefined;
use crate::undefined::forbids_iterating;
use std::alloc::Global;
use template_values_core::{Content, Entry, Value};
use template_values_errors::{Error, UndefinedBehavior};
use template_values_forms::Records;
use template_values_items::items_of;
use template_values_operators::refusal;

/// The items of each value, one behind the other: those of a list or tuple, the characters of a text, the keys of a map, keyword
/// map, module or namespace; none of none and undefined, in any mode. Linear in their number.
///
/// # Errors
///
/// [`ErrorKind::InvalidOperation`] at the first other value, as at a foreign namespace; [`ErrorKind::OutOfMemory`].
///
/// [`ErrorKind::InvalidOperation`]: template_values_errors::ErrorKind::InvalidOperation
/// [`ErrorKind::OutOfMemory`]: template_values_errors::ErrorKind::OutOfMemory
pub fn spread<R: Records>(alloc: Global, values: &[Value], records: &R) -> Result<Vec<Value>, Error>
    ensures { Answers (items_given result) (items_of_each (R.known records.now) values.now) }
{
    let mut items = Vec::new(alloc);
    for value in values {
        push_items(alloc, &mut items, value, records)?;
    }
    Ok(items)
}

/// Puts the items of a value behind the others.
#[tactic(auto, using(crate::proofs::Spreading::putting))]
fn push_items<R: Records>(
    alloc: Global,
    items: &mut Vec<Value>,
    value: &Value,
    records: &R,
) -> Result<(), Error>
    ensures { Adds result items.old.items items.new.items (kinded (iterated (R.known records.now) value.now)) }
{
    let mut more = items_of(alloc, value, records)?;
    items.append(&mut more)?;
    Ok(())
}

/// One keyword map of the entries of each map, keyword map, module or namespace: of equal names the last value stands. As dear as
/// [`build_kwargs`].
///
/// # Errors
///
/// [`ErrorKind::UndefinedError`] at an undefined value that the mode forbids to go over; [`ErrorKind::InvalidOperation`] at the
/// first other value, as at a foreign namespace, and where the keyword map would nest deeper than any value may;
/// [`ErrorKind::OutOfMemory`].
///
/// [`ErrorKind::UndefinedError`]: template_values_errors::ErrorKind::UndefinedError
/// [`ErrorKind::InvalidOperation`]: template_values_errors::ErrorKind::InvalidOperation
/// [`ErrorKind::OutOfMemory`]: template_values_errors::ErrorKind::OutOfMemory
#[tactic(auto, using(crate::proofs::Spreading::merging))]
pub fn merge_kwargs<R: Records>(
    alloc: Global,
    mode: UndefinedBehavior,
    maps: &[Value],
    records: &R,
) -> Result<Value, Error>
    ensures { Answers result (merged_keywords mode (R.known records.now) maps.now) }
{
    let entries = entries_of_each(alloc, mode, maps, records)?;
    build_kwargs(alloc, entries)
}

/// The entries of each map, one behind the other.
fn entries_of_each<R: Records>(
    alloc: Global,
    mode: UndefinedBehavior,
    maps: &[Value],
    records: &R,
) -> Result<Vec<Entry>, Error>
    ensures { Answers (entries_given result) (entries_of_each mode (R.known records.now) maps.now) }
{
    let mut entries = Vec::new(alloc);
    for map in maps {
        push_entries(&mut entries, mode, map, records)?;
    }
    Ok(entries)
}

/// Puts the entries of a map behind the others.
fn push_entries<R: Records>(
    entries: &mut Vec<Entry>,
    mode: UndefinedBehavior,
    map: &Value,
    records: &R,
) -> Result<(), Error>
    ensures { let held = entries_or_refused (entries_held (R.known records.now) map.now) in
        Adds result (pairs_in entries.old.items) (pairs_in entries.new.items) (guarded (forbids_iterating mode map.now) held) }
{
    if forbids_iterating(mode, map) {
        return undefined::refusal();
    }
    push_held(entries, entries_held(map, records))
}

/// Puts the entries behind the others, where there are any to be had.
fn push_held(entries: &mut Vec<Entry>, held: Option<&[Entry]>) -> Result<(), Error>
    ensures { let held = entries_or_refused (option_map (λ es. pairs_in es.now) held.entry) in
        Adds result (pairs_in entries.old.items) (pairs_in entries.new.items) held }
{
    match held {
        Some(held) => push_copies(entries, held),
        None => refusal(),
    }
}

/// The entries of a map, a keyword map, a module, or a namespace that is known.
fn entries_held<'a, R: Records>(map: &'a Value, records: &'a R) -> Option<&'a [Entry]>
    ensures { option_map (λ es. pairs_in es.now) result ≡ entries_held (R.known records.now) map.now }
{
    match map.content() {
        Content::Map(held) => Some(held),
        Content::KeywordMap(held) => Some(held),
        Content::Module(held, _) => Some(held),
        Content::Namespace(id, number) => records.namespace(id, number),
        _ => None,
    }
}
