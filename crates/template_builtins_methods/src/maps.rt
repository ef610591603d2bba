//! The methods of maps.
ghost use Rattle.std.specs.Prelude.{◌≡◌, IfErr, IfOk, option_copied, unwrap_or};
ghost use Rattle.template_builtins_arguments.specs.Answers.{Tells, TellsAs};
ghost use Rattle.template_builtins_lists.specs.Lists.{list_from};
ghost use Rattle.template_builtins_methods.specs.Maps as maps;
ghost use Rattle.template_callables.specs.Views.{seen_in};
ghost use Rattle.template_values_core.specs.Maps.{pairs_of};
ghost use Rattle.template_values_core.specs.Shape.{pairs_in};
ghost use Rattle.template_values_errors.specs.Memory.{NoMemory};
ghost use Rattle.template_values_model.specs.Val.{none};

use crate::placed::{first_of, placed};
use std::alloc::Global;
use template_builtins_arguments::{Arguments, refusal};
use template_builtins_lists::ListFilter;
use template_callables::CallView;
use template_values_core::{Content, Entry, Value};
use template_values_errors::Error;
use template_values_operators::kinds::list_made;

/// The methods of maps and keyword maps.
#[derive(Clone, Copy)]
pub enum MapMethod {
    /// A list of the pairs as tuples.
    Items,
    /// A list of the keys.
    Keys,
    /// A list of the values.
    Values,
    /// The value under a key, or else a default.
    Get,
}

impl MapMethod {
    /// What the method makes of a map or a keyword map and the arguments. `Get` takes log n comparisons for n entries, the others are
    /// linear in their number.
    ///
    /// # Errors
    ///
    /// - [`ErrorKind::TooManyArguments`], then [`ErrorKind::MissingArgument`], by the arguments that the method has, none of which is
    ///   given by keyword.
    /// - [`ErrorKind::InvalidOperation`] at another value, or if the result would nest too deep.
    /// - [`ErrorKind::OutOfMemory`]
    ///
    /// [`ErrorKind::TooManyArguments`]: template_values_errors::ErrorKind::TooManyArguments
    /// [`ErrorKind::MissingArgument`]: template_values_errors::ErrorKind::MissingArgument
    /// [`ErrorKind::InvalidOperation`]: template_values_errors::ErrorKind::InvalidOperation
    /// [`ErrorKind::OutOfMemory`]: template_values_errors::ErrorKind::OutOfMemory
    pub fn apply(
        self,
        alloc: Global,
        view: &CallView<'_>,
        value: &Value,
        arguments: &[Value],
    ) -> Result<Value, Error>
        ensures { Tells result (maps.map_called self (seen_in view.now) value.now arguments.now) }
    {
        match self {
            MapMethod::Items => items(alloc, view, value, arguments),
            MapMethod::Keys => keys(alloc, view, value, arguments),
            MapMethod::Values => values(alloc, value, arguments),
            MapMethod::Get => get(value, arguments),
        }
    }
}

#[tactic(auto, unfolding(crate::specs::Maps::items))]
fn items(
    alloc: Global,
    view: &CallView<'_>,
    value: &Value,
    arguments: &[Value],
) -> Result<Value, Error>
    ensures { Tells result (maps.items (seen_in view.now) value.now arguments.now) }
{
    if is_map(value) {
        ListFilter::Items.apply(alloc, view, value, arguments)
    } else {
        refusal()
    }
}

#[tactic(auto, unfolding(crate::specs::Maps::keys))]
fn keys(
    alloc: Global,
    view: &CallView<'_>,
    value: &Value,
    arguments: &[Value],
) -> Result<Value, Error>
    ensures { Tells result (maps.keys (seen_in view.now) value.now arguments.now) }
{
    if is_map(value) {
        ListFilter::List.apply(alloc, view, value, arguments)
    } else {
        refusal()
    }
}

#[tactic(auto, unfolding(crate::specs::Maps::values))]
fn values(alloc: Global, value: &Value, arguments: &[Value]) -> Result<Value, Error>
    ensures { Tells result (maps.values value.now arguments.now) }
{
    Arguments::read(&[], 0, arguments)?;
    list_from(alloc, values_of(alloc, entries_of(value)?)?)
}

// The list of these items.
#[tactic(auto, using(template_builtins_paths::proofs::Steps::tells_told), unfolding(template_builtins_lists::specs::Lists::list_from))]
fn list_from(alloc: Global, items: Vec<Value>) -> Result<Value, Error>
    ensures { Tells result (list_from items.items) }
{
    list_made(alloc, items)
}

// The values that stand under the keys.
fn values_of(alloc: Global, entries: &[Entry]) -> Result<Vec<Value>, Error>
    ensures made { IfOk result (λ v. v.items ≡ maps.values_of (pairs_of (pairs_in entries.now))) }
    ensures refused { IfErr result NoMemory }
{
    let mut values = Vec::with_capacity(alloc, entries.len())?;
    for entry in entries {
        values.push(entry.value.copy()?)?;
    }
    Ok(values)
}

fn is_map(value: &Value) -> bool
    ensures { result ≡ maps.is_map value.now }
{
    match value.content() {
        Content::Map(_) | Content::KeywordMap(_) => true,
        _ => false,
    }
}

// The entries of a map or a keyword map.
fn entries_of(value: &Value) -> Result<&[Entry], Error>
    ensures { TellsAs (λ entries. pairs_of (pairs_in entries.now)) result (maps.pairs_of_map value.now) }
{
    match value.content() {
        Content::Map(entries) | Content::KeywordMap(entries) => Ok(entries),
        _ => refusal(),
    }
}

#[tactic(auto, unfolding(crate::specs::Maps::get))]
fn get(value: &Value, arguments: &[Value]) -> Result<Value, Error>
    ensures { Tells result (maps.get value.now arguments.now) }
{
    let given = placed(1, 2, arguments)?;
    if !is_map(value) {
        return refusal();
    }
    found_or(given, value, first_of(given)?)
}

// What stands under a key, or else the second argument.
fn found_or(given: &[Value], value: &Value, key: &Value) -> Result<Value, Error>
    ensures made { IfOk result (λ v. v ≡ maps.found_or given.now value.now key.now) }
    ensures refused { IfErr result NoMemory }
{
    match value.value_under(key) {
        Some(found) => found.copy(),
        None => copy_or_none(given.get(1)),
    }
}

fn copy_or_none(value: Option<&Value>) -> Result<Value, Error>
    ensures made { IfOk result (λ v. v ≡ unwrap_or (option_copied value.entry) none) }
    ensures refused { IfErr result NoMemory }
{
    match value {
        Some(value) => value.copy(),
        None => Ok(Value::none()),
    }
}
