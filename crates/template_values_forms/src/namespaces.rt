//! Whether a namespace stands in a value.
ghost use Rattle.std.specs.Prelude.{◌≡◌, ◌≤◌, false};
ghost use Rattle.template_values_model.specs.Val.{vals_of};
ghost use Rattle.template_values_core.specs.Depth.{depth};
ghost use Rattle.template_values_core.specs.Kept.{IsRising};
ghost use Rattle.template_values_core.specs.Maps.{pairs_of};
ghost use Rattle.template_values_core.specs.Shape.{pairs_in};
ghost use Rattle.template_values_forms.specs.Frozen.{holds_namespace, pairs_hold_namespace, vals_hold_namespace};
ghost use Rattle.template_values_forms.specs.Given.{PairsStay, Stays, ValsStay};

use template_values_core::{Content, Entry, Value};
use template_values_model::DEPTH_LIMIT;

/// Whether a namespace stands in the value. If none does, freezing changes nothing. Takes no memory.
#[cycle(holds)]
pub(crate) fn holds_namespace(value: &Value) -> bool
    ensures is { result ≡ holds_namespace value.now }
    ensures stays { result ≡ false → Stays value.now }
    ensures bound { depth value.now ≤ DEPTH_LIMIT }
{
    if value.levels() == 0 {
        return is_namespace(value);
    }
    if let Some(items) = value.items() {
        return any_item_holds(items);
    }
    match value.entries() {
        Some(entries) => any_entry_holds(entries),
        None => false,
    }
}

fn is_namespace(value: &Value) -> bool
    requires { depth value.now ≡ 0 }
    ensures is { result ≡ holds_namespace value.now }
    ensures stays { result ≡ false → Stays value.now }
{
    matches!(value.content(), Content::Namespace(_, _))
}

#[cycle(holds)]
fn any_item_holds(items: &[Value]) -> bool
    ensures is { result ≡ vals_hold_namespace (vals_of items.now) }
    ensures stay { result ≡ false → ValsStay items.now }
{
    for item in items {
        if holds_namespace(item) {
            return true;
        }
    }
    false
}

#[cycle(holds)]
fn any_entry_holds(entries: &[Entry]) -> bool
    requires rising { IsRising entries.now }
    ensures is { result ≡ pairs_hold_namespace (pairs_of (pairs_in entries.now)) }
    ensures stay { result ≡ false → PairsStay (pairs_in entries.now) }
{
    for entry in entries {
        if holds_namespace(&entry.key) || holds_namespace(&entry.value) {
            return true;
        }
    }
    false
}
