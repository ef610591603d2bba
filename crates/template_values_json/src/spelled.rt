//! The values of JSON whose numbers are kept as they are spelled.
ghost use Rattle.std.specs.Prelude.{◌≡◌, ◌<◌, ◌≤◌, IfErr, IfOk};
ghost use Rattle.json.specs.Tree.{depth, items_depth, members_depth};
ghost use Rattle.json.specs.Value.{items_view, members_view, value_view};
ghost use Rattle.serde_json.specs.Read.{max_depth};
ghost use Rattle.template_values_json.specs.Spelled.{spelled_pairs, spelled_value, spelled_values};
ghost use Rattle.template_values_core.specs.Shape.{pairs_in};
ghost use Rattle.template_values_errors.specs.Memory.{NoMemory};
ghost use Rattle.template_values_model.specs.Val.{vals_of};

use crate::names::{entry_named, first_of, key_of, value_in};
use crate::spelled_numbers::number_value;
use json::Value as Json;
use std::alloc::Global;
use template_values_core::{Entry, Value};
use template_values_errors::Error;

/// The value that the JSON stands for. Its texts are copied, each once, and a name that `like` has at the same place is shared with
/// it: rows of a table mostly have the names of the row before. Takes time in proportion to the JSON, and n log n comparisons for n
/// members.
#[cycle(values)]
pub(crate) fn value_from(
    alloc: Global,
    json: &Json<'_>,
    like: Option<&Value>,
) -> Result<Value, Error>
    requires shallow { depth (value_view json.now) ≤ max_depth }
    ensures is { IfOk result (λ v. v ≡ spelled_value (value_view json.now)) }
    ensures refused { IfErr result NoMemory }
{
    match json {
        Json::Null => Ok(Value::none()),
        Json::Bool(value) => Ok(Value::from_bool(*value)),
        Json::Number(text) => number_value(alloc, text),
        Json::String(text) => Value::from_str(alloc, text),
        Json::Array(items) => Value::from_list(alloc, values_from(alloc, items, first_of(like))?),
        Json::Object(members) => Value::from_map(alloc, entries_from(alloc, members, like)?),
    }
}

/// The values of the items.
#[cycle(values)]
#[inline(never)]
fn values_from(alloc: Global, items: &[Json<'_>], like: Option<&Value>) -> Result<Vec<Value>, Error>
    requires shallow { items_depth (items_view items.now) < max_depth }
    ensures are { IfOk result (λ vs. vals_of vs.items ≡ spelled_values (items_view items.now)) }
    ensures refused { IfErr result NoMemory }
{
    let mut values = Vec::with_capacity(alloc, items.len())?;
    for item in items {
        let value = value_from(alloc, item, values.last().or(like))?;
        values.push(value)?;
    }
    Ok(values)
}

/// One entry for each member, in their order.
#[cycle(values)]
#[inline(never)]
fn entries_from(
    alloc: Global,
    members: &[(&str, Json<'_>)],
    like: Option<&Value>,
) -> Result<Vec<Entry>, Error>
    requires shallow { members_depth (members_view members.now) < max_depth }
    ensures are { IfOk result (λ es. pairs_in es.items ≡ spelled_pairs (members_view members.now)) }
    ensures refused { IfErr result NoMemory }
{
    let mut entries = Vec::with_capacity(alloc, members.len())?;
    for member in members {
        let before = entry_named(like, member.0);
        let key = key_of(alloc, member.0, before)?;
        let value = value_from(alloc, &member.1, value_in(before))?;
        entries.push(Entry { key, value })?;
    }
    Ok(entries)
}
