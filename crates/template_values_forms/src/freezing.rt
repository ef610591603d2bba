//! Values whose namespaces are maps.
ghost use Rattle.std.specs.Prelude.{◌≡◌, ◌<◌, ◌≤◌};
ghost use Rattle.template_values_model.specs.Gives.{Gives};
ghost use Rattle.template_values_model.specs.Val.{vals_of};
ghost use Rattle.template_values_core.specs.Maps.{pairs_of};
ghost use Rattle.template_values_core.specs.Shape.{pairs_in};
ghost use Rattle.template_values_forms.specs.Printed.{level_limit};
ghost use Rattle.template_values_forms.specs.Frozen.{both, flat_frozen, frozen, frozen_map, frozen_namespace, frozen_pairs, frozen_vals, inner_frozen, nested_frozen};
ghost use Rattle.template_values_forms.specs.Given.{pair_given, pairs_given, values_given};

use crate::Records;
use crate::namespaces::holds_namespace;
use std::alloc::Global;
use template_values_core::{Content, Entry, Value};
use template_values_errors::{Error, ErrorKind};
use template_values_model::DEPTH_LIMIT;

/// The value as it is once it has left the state of the records: each namespace in it is a map of what
/// it holds, which is frozen in turn. Where freezing makes keys equal the first stays, with the last
/// one's value. Functions, loops and macros stay, also foreign ones.
///
/// A value in which no namespace stands is given back as it is, and nothing is copied. Of any other the
/// containers are built anew; their texts and bytes are shared, but for the text of a module. Linear
/// in what the value holds, and in the entries of a namespace each time that it is met; keys that freezing
/// puts out of their order take n log n comparisons.
///
/// # Errors
///
/// - [`ErrorKind::InvalidOperation`], if a foreign namespace is met, or if the value with the namespaces
///   that it leads to nests deeper than [`DEPTH_LIMIT`] levels, as where one holds itself.
/// - [`ErrorKind::OutOfMemory`]
pub fn freeze<R: Records>(alloc: Global, value: Value, records: &R) -> Result<Value, Error>
    ensures { Gives result (frozen (R.known records.now) value) }
{
    if !holds_namespace(&value) {
        return Ok(value);
    }
    freeze_inner(alloc, &value, records, deepest())
}

// How deep values may nest that are frozen.
fn deepest() -> u32
    ensures { result ≡ level_limit }
{
    DEPTH_LIMIT
}

#[cycle(freeze)]
fn freeze_inner<R: Records>(
    alloc: Global,
    value: &Value,
    records: &R,
    left: u32,
) -> Result<Value, Error>
    requires { left ≤ DEPTH_LIMIT }
    ensures { Gives result (inner_frozen (R.known records.now) left value.now) }
{
    if left == 0 {
        return freeze_flat(value);
    }
    freeze_nested(alloc, value, records, left - 1)
}

#[cycle(freeze)]
fn freeze_nested<R: Records>(
    alloc: Global,
    value: &Value,
    records: &R,
    left: u32,
) -> Result<Value, Error>
    requires { left < DEPTH_LIMIT }
    ensures { let inner = inner_frozen (R.known records.now) left in
        Gives result (nested_frozen (R.known records.now) inner value.now) }
{
    match value.content() {
        Content::List(items) => {
            Value::from_list(alloc, freeze_items(alloc, items, records, left)?)
        }
        Content::Tuple(items) => {
            Value::from_tuple(alloc, freeze_items(alloc, items, records, left)?)
        }
        Content::Map(entries) => freeze_map(alloc, entries, records, left),
        Content::KeywordMap(entries) => {
            Value::from_kwargs(alloc, freeze_entries(alloc, entries, records, left)?)
        }
        Content::Module(entries, text) => {
            let entries = freeze_entries(alloc, entries, records, left)?;
            Value::from_module(alloc, entries, String::from_str(alloc, text)?)
        }
        Content::Namespace(id, number) => freeze_namespace(alloc, id, number, records, left),
        _ => freeze_flat(value),
    }
}

#[cycle(freeze)]
fn freeze_namespace<R: Records>(
    alloc: Global,
    id: u64,
    number: usize,
    records: &R,
    left: u32,
) -> Result<Value, Error>
    requires { left < DEPTH_LIMIT }
    ensures { let inner = inner_frozen (R.known records.now) left in
        Gives result (frozen_namespace inner ((R.known records.now).namespaces id number)) }
{
    match records.namespace(id, number) {
        Some(entries) => freeze_map(alloc, entries, records, left),
        None => Err(Error::new(ErrorKind::InvalidOperation)),
    }
}

#[cycle(freeze)]
fn freeze_map<R: Records>(
    alloc: Global,
    entries: &[Entry],
    records: &R,
    left: u32,
) -> Result<Value, Error>
    requires { left < DEPTH_LIMIT }
    ensures { let inner = inner_frozen (R.known records.now) left in
        Gives result (frozen_map inner (pairs_of (pairs_in entries.now))) }
{
    Value::from_map(alloc, freeze_entries(alloc, entries, records, left)?)
}

#[cycle(freeze)]
fn freeze_items<R: Records>(
    alloc: Global,
    items: &[Value],
    records: &R,
    left: u32,
) -> Result<Vec<Value>, Error>
    requires { left < DEPTH_LIMIT }
    ensures { let inner = inner_frozen (R.known records.now) left in
        Gives (values_given result) (frozen_vals inner (vals_of items.now)) }
{
    let mut values = Vec::with_capacity(alloc, items.len())?;
    for item in items {
        values.push(freeze_inner(alloc, item, records, left)?)?;
    }
    Ok(values)
}

#[cycle(freeze)]
fn freeze_entries<R: Records>(
    alloc: Global,
    entries: &[Entry],
    records: &R,
    left: u32,
) -> Result<Vec<Entry>, Error>
    requires { left < DEPTH_LIMIT }
    ensures { let inner = inner_frozen (R.known records.now) left in
        Gives (pairs_given result) (frozen_pairs inner (pairs_of (pairs_in entries.now))) }
{
    let mut frozen = Vec::with_capacity(alloc, entries.len())?;
    for entry in entries {
        frozen.push(freeze_entry(alloc, entry, records, left)?)?;
    }
    Ok(frozen)
}

#[cycle(freeze)]
fn freeze_entry<R: Records>(
    alloc: Global,
    entry: &Entry,
    records: &R,
    left: u32,
) -> Result<Entry, Error>
    requires { left < DEPTH_LIMIT }
    ensures { let inner = inner_frozen (R.known records.now) left in
        Gives (pair_given result) (both (inner entry.now.key) (inner entry.now.value)) }
{
    let key = freeze_inner(alloc, &entry.key, records, left)?;
    let value = freeze_inner(alloc, &entry.value, records, left)?;
    Ok(Entry { key, value })
}

// A container or a namespace, where no value may nest further, is refused.
fn freeze_flat(value: &Value) -> Result<Value, Error>
    ensures { Gives result (flat_frozen value.now) }
{
    match value.content() {
        Content::List(_)
        | Content::Tuple(_)
        | Content::Map(_)
        | Content::KeywordMap(_)
        | Content::Module(_, _)
        | Content::Namespace(_, _) => Err(Error::new(ErrorKind::InvalidOperation)),
        _ => value.copy(),
    }
}
