//! The methods of lists and tuples.
ghost use Rattle.std.specs.Prelude.{◌≡◌, position};
ghost use Rattle.std.specs.Ordering.{eq_by_cmp};
ghost use Rattle.template_builtins_arguments.specs.Answers.{Tells, TellsAs};
ghost use Rattle.template_builtins_methods.specs.Lists as lists;
ghost use Rattle.template_builtins_methods.specs.Placed.{or_refused};
ghost use Rattle.template_callables.specs.Views.{seen_in};
ghost use Rattle.template_values_core.specs.Order.{val_cmp};
ghost use Rattle.template_values_core.specs.Reads.{items_in};

use crate::placed::the_argument;
use std::alloc::Global;
use template_builtins_arguments::refusal;
use template_callables::CallView;
use template_values_core::Value;
use template_values_errors::Error;

/// The methods of lists and tuples.
#[derive(Clone, Copy)]
pub enum ListMethod {
    /// How many items are equal to a value.
    Count,
    /// The place of the first item that is equal to a value.
    Index,
}

impl ListMethod {
    /// What the method makes of a list or a tuple and the arguments. Takes at most as many comparisons as there are items.
    ///
    /// # Errors
    ///
    /// - [`ErrorKind::TooManyArguments`], then [`ErrorKind::MissingArgument`], if it is not one argument by place.
    /// - [`ErrorKind::InvalidOperation`] at another value, or if `Index` finds no item.
    ///
    /// [`ErrorKind::TooManyArguments`]: template_values_errors::ErrorKind::TooManyArguments
    /// [`ErrorKind::MissingArgument`]: template_values_errors::ErrorKind::MissingArgument
    /// [`ErrorKind::InvalidOperation`]: template_values_errors::ErrorKind::InvalidOperation
    pub fn apply(
        self,
        _alloc: Global,
        view: &CallView<'_>,
        value: &Value,
        arguments: &[Value],
    ) -> Result<Value, Error>
        ensures { Tells result (lists.list_called self (seen_in view.now) value.now arguments.now) }
    {
        match self {
            ListMethod::Count => count(value, arguments),
            ListMethod::Index => index(value, arguments),
        }
    }
}

#[tactic(auto, unfolding(crate::specs::Lists::counted))]
fn count(value: &Value, arguments: &[Value]) -> Result<Value, Error>
    ensures { Tells result (lists.counted value.now arguments.now) }
{
    let sought = the_argument(arguments)?;
    let found = occurrences(sought, items_of(value)?);
    Ok(Value::from_int(found as i128))
}

#[tactic(auto, unfolding(crate::specs::Lists::indexed))]
fn index(value: &Value, arguments: &[Value]) -> Result<Value, Error>
    ensures { Tells result (lists.indexed value.now arguments.now) }
{
    let sought = the_argument(arguments)?;
    let place = place_of(sought, items_of(value)?)?;
    Ok(Value::from_int(place as i128))
}

fn items_of(value: &Value) -> Result<&[Value], Error>
    ensures { TellsAs (λ items. items.now) result (or_refused (items_in value.now)) }
{
    match value.items() {
        Some(items) => Ok(items),
        None => refusal(),
    }
}

fn occurrences(sought: &Value, items: &[Value]) -> usize
    ensures { result ≡ lists.occurrences sought.now items.now }
{
    items.iter().filter(|item| *item == sought).count()
}

fn place_of(sought: &Value, items: &[Value]) -> Result<usize, Error>
    ensures { Tells result (lists.place_of sought.now items.now) }
{
    match position(sought, items) {
        Some(place) => Ok(place),
        None => refusal(),
    }
}

fn position(sought: &Value, items: &[Value]) -> Option<usize>
    ensures { result ≡ position (λ item. eq_by_cmp val_cmp item sought.now) items.now }
{
    items.iter().position(|item| item == sought)
}
