//! Values in order: what a loop goes over, what is unpacked, and what an include chooses from.

ghost use Rattle.std.specs.Prelude.{◌≡◌, ◌==◌, [], ◌∷◌, length, slice_get, option_copied};
ghost use Rattle.template_values_items.specs.Shared.{items_shared};

use std::marker::Model;
use std::slice;
use template_values_core::Value;

/// Values in order, as a contract sees them, which stand side by side. The items of lists and tuples
/// are shared with the value that has them.
#[derive(Drop)]
pub struct Items {
    held: Held,
}

/// Where the values are.
#[derive(Drop)]
enum Held {
    One(Value),
    Items(Value),
    Made(Vec<Value>),
}

impl Model for Items {
    ghost use Rattle.std.specs.Prelude.{List};
    ghost use Rattle.std.specs.Coded.{coded_list};
    ghost use Rattle.template_values_model.specs.Val.{Val};
    ghost use Rattle.template_values_core.specs.Code.{val_code};

    ghost Value = { List Val };

    ghost coded = { coded_list val_code };

    ghost use Rattle.template_values_items.specs.Held.{values_held};

    ghost view = { λ items. values_held items.held };
}

impl Items {
    /// The values side by side.
    pub fn as_slice(&self) -> &[Value]
        ensures { result.now ≡ self.now }
    {
        match &self.held {
            Held::One(value) => slice::from_ref(value),
            Held::Items(value) => items_shared(value),
            Held::Made(values) => values.as_slice(),
        }
    }

    /// How many values there are.
    pub fn len(&self) -> usize
        ensures { result ≡ length self.now }
    {
        self.as_slice().len()
    }

    /// Whether there are none.
    pub fn is_empty(&self) -> bool
        ensures { result ≡ (length self.now == 0) }
    {
        self.len() == 0
    }

    /// The value at a place, from 0.
    #[inline(always)]
    pub fn get(&self, place: usize) -> Option<&Value>
        ensures { option_copied result ≡ slice_get self.now place }
    {
        match &self.held {
            Held::Items(value) => items_shared(value).get(place),
            _ => self.get_of_any(place),
        }
    }

    // The same. Most loops go over a list or a tuple, which needs no call.
    #[inline(never)]
    fn get_of_any(&self, place: usize) -> Option<&Value>
        ensures { option_copied result ≡ slice_get self.now place }
    {
        self.as_slice().get(place)
    }

    /// One value.
    pub fn one(value: Value) -> Items
        ensures { result ≡ value ∷ [] }
    {
        Items {
            held: Held::One(value),
        }
    }

    /// The items of a list or tuple, which are not copied; none of other values.
    pub fn items_of(value: Value) -> Items
        ensures { result ≡ items_shared value }
    {
        Items {
            held: Held::Items(value),
        }
    }

    /// Values that nothing else holds.
    pub fn made(values: Vec<Value>) -> Items
        ensures { result ≡ values.items }
    {
        Items {
            held: Held::Made(values),
        }
    }
}

/// The items of a list or tuple; none of other values.
fn items_shared(value: &Value) -> &[Value]
    ensures { result.now ≡ items_shared value.now }
{
    match value.items() {
        Some(items) => items,
        None => &[],
    }
}
