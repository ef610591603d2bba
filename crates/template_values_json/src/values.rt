//! The values that JSON stands for.
ghost use Rattle.std.specs.Prelude.{◌≡◌, ◌<◌, ◌≤◌, false, IfErr, IfOk};
ghost use Rattle.serde_json.specs.Data.{depth, items_depth, members_depth, object};
ghost use Rattle.serde_json.specs.Read.{max_depth};
ghost use Rattle.serde_json.specs.View.{view, items_view, members_view};
ghost use Rattle.serde_json.specs.Written.{has_float, items_have_float, members_have_float};
ghost use Rattle.template_values_model.specs.Val.{vals_of};
ghost use Rattle.template_values_core.specs.Kept.{IsRising};
ghost use Rattle.template_values_core.specs.Shape.{pairs_in};
ghost use Rattle.template_values_json.specs.Leaves.{IsFloatRefusal};
ghost use Rattle.template_values_json.specs.Json.{value_of, values_of, named_values};
ghost use Rattle.template_values_json.specs.Entries.{SayData};

use crate::value_of_leaf;
use serde_json::{Map, Value as Json};
use std::alloc::Global;
use template_values_core::{Entry, Value};
use template_values_errors::Error;

/// The value that the JSON stands for, moving its texts, where no float stands in it.
#[cycle(values)]
#[inline(always)]
pub(crate) fn value_from(alloc: Global, json: Json) -> Result<Value, Error>
    requires shallow { depth (view json) ≤ max_depth }
    ensures whole { IfOk result (λ _. has_float (view json) ≡ false) }
    ensures is { IfOk result (λ v. v ≡ value_of (view json)) }
    ensures refused { IfErr result (IsFloatRefusal (has_float (view json))) }
{
    match json {
        Json::Array(items) => Value::from_list(alloc, values_from(alloc, items)?),
        Json::Object(members) => Value::from_rising_entries(alloc, entries_from(alloc, members)?),
        leaf => value_of_leaf(leaf),
    }
}

/// The values of the items.
#[cycle(values)]
#[inline(never)]
fn values_from(alloc: Global, items: Vec<Json>) -> Result<Vec<Value>, Error>
    requires shallow { items_depth (items_view items.items) < max_depth }
    ensures whole { IfOk result (λ _. items_have_float (items_view items.items) ≡ false) }
    ensures are { IfOk result (λ vs. vals_of vs.items ≡ values_of (items_view items.items)) }
    ensures refused { IfErr result (IsFloatRefusal (items_have_float (items_view items.items))) }
{
    let mut values = Vec::with_capacity(alloc, items.len())?;
    for item in items {
        let value = value_from(alloc, item)?;
        values.push(value)?;
    }
    Ok(values)
}

/// One entry for each member, in the order of their names.
#[cycle(values)]
#[inline(never)]
pub(crate) fn entries_from(alloc: Global, members: Map<String, Json>) -> Result<Vec<Entry>, Error>
    requires shallow { members_depth (members_view members.entries) < max_depth }
    ensures whole { IfOk result (λ _. members_have_float (members_view members.entries) ≡ false) }
    ensures are { IfOk result (λ es. pairs_in es.items ≡ named_values (members_view members.entries)) }
    ensures rising { IfOk result (λ es. IsRising es.items) }
    ensures says { IfOk result (λ es. SayData (object (members_view members.entries)) es.items) }
    ensures refused { IfErr result (IsFloatRefusal (members_have_float (members_view members.entries))) }
{
    let mut entries = Vec::with_capacity(alloc, members.len())?;
    for (name, member) in members {
        let key = Value::from_text(name)?;
        let value = value_from(alloc, member)?;
        entries.push(Entry { key, value })?;
    }
    Ok(entries)
}
