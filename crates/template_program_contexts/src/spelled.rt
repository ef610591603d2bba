//! The values of JSON, with numbers kept as they are spelled.
ghost use Rattle.std.specs.Prelude.{◌≡◌, ◌<◌, ◌≤◌, IfErr, IfOk};
ghost use Rattle.json.specs.Tree.{depth, items_depth, members_depth};
ghost use Rattle.json.specs.Value.{items_view, members_view, value_view};
ghost use Rattle.serde_json.specs.Read.{max_depth};
ghost use Rattle.template_values_json.specs.Spelled.{spelled_pairs, spelled_value, spelled_values};
ghost use Rattle.template_values_core.specs.Shape.{pairs_in};
ghost use Rattle.template_values_errors.specs.Memory.{NoMemory};
ghost use Rattle.template_values_model.specs.Val.{vals_of};

use crate::numbers::number_value;
use json::Value as Json;
use std::alloc::Global;
use template_values_core::{Entry, Value};
use template_values_errors::Error;

/// The value that the JSON stands for. Its texts are copied, each once. Takes time in proportion to the JSON, and n log n comparisons
/// for n members.
#[cycle(values)]
pub(crate) fn value_from(alloc: Global, json: &Json<'_>) -> Result<Value, Error>
    requires shallow { depth (value_view json.now) ≤ max_depth }
    ensures is { IfOk result (λ v. v ≡ spelled_value (value_view json.now)) }
    ensures refused { IfErr result NoMemory }
{
    match json {
        Json::Null => Ok(Value::none()),
        Json::Bool(value) => Ok(Value::from_bool(*value)),
        Json::Number(text) => number_value(alloc, text),
        Json::String(text) => Value::from_str(alloc, text),
        Json::Array(items) => Value::from_list(alloc, values_from(alloc, items)?),
        Json::Object(members) => Value::from_map(alloc, entries_from(alloc, members)?),
    }
}

/// The values of the items.
#[cycle(values)]
#[inline(never)]
fn values_from(alloc: Global, items: &[Json<'_>]) -> Result<Vec<Value>, Error>
    requires shallow { items_depth (items_view items.now) < max_depth }
    ensures are { IfOk result (λ vs. vals_of vs.items ≡ spelled_values (items_view items.now)) }
    ensures refused { IfErr result NoMemory }
{
    let mut values = Vec::with_capacity(alloc, items.len())?;
    for item in items {
        values.push(value_from(alloc, item)?)?;
    }
    Ok(values)
}

/// One entry for each member, in their order.
#[cycle(values)]
#[inline(never)]
pub(crate) fn entries_from(alloc: Global, members: &[(&str, Json<'_>)]) -> Result<Vec<Entry>, Error>
    requires shallow { members_depth (members_view members.now) < max_depth }
    ensures are { IfOk result (λ es. pairs_in es.items ≡ spelled_pairs (members_view members.now)) }
    ensures refused { IfErr result NoMemory }
{
    let mut entries = Vec::with_capacity(alloc, members.len())?;
    for member in members {
        let key = Value::from_str(alloc, member.0)?;
        let value = value_from(alloc, &member.1)?;
        entries.push(Entry { key, value })?;
    }
    Ok(entries)
}
