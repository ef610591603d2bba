//! Filters that go over the items of a value.
ghost use Rattle.std.specs.Prelude.{◌≡◌, option_copied};
ghost use Rattle.template_builtins_arguments.specs.Answers.{Tells, TellsAs, told};
ghost use Rattle.template_builtins_arguments.specs.Given.{given_by};
ghost use Rattle.template_builtins_callables.specs.Each as makes;
ghost use Rattle.template_builtins_callables.specs.Each.{path_at, path_of};
ghost use Rattle.template_builtins_callables.specs.Filtered.{each_filtered};
ghost use Rattle.template_builtins_paths.specs.Items.{each};
ghost use Rattle.template_builtins_paths.specs.Paths.{part_of};
ghost use Rattle.template_callables.specs.Views.{seen_in};
ghost use Rattle.template_values_operators.specs.Kinds.{list_made};

use crate::selecting::{selected, selected_by_part};
use std::alloc::Global;
use template_builtins_arguments::{Arguments, items_of, refusal};
use template_builtins_paths::{is_path, part_of};
use template_callables::CallView;
use template_values_core::Value;
use template_values_errors::Error;

/// A filter that goes over the items of a value.
#[derive(Clone, Copy)]
pub enum EachFilter {
    /// Each item under a filter, or its part at a path.
    Map,
    /// The items for which a test holds.
    Select,
    /// The items for which a test does not hold.
    Reject,
    /// The items for whose part at a path a test holds.
    SelectAttr,
    /// The items for whose part at a path a test does not hold.
    RejectAttr,
}

impl EachFilter {
    /// What the filter makes of a value and the arguments after it, where these name no other filter.
    ///
    /// # Errors
    ///
    /// Those of the filter, and [`ErrorKind::OutOfMemory`](template_values_errors::ErrorKind::OutOfMemory).
    pub fn apply(
        self,
        alloc: Global,
        view: &CallView<'_>,
        value: &Value,
        arguments: &[Value],
    ) -> Result<Value, Error>
        ensures { Tells result (each_filtered self (seen_in view.now) value.now arguments.now) }
    {
        match self {
            EachFilter::Map => parts_made(alloc, view, value, arguments),
            EachFilter::Select => selected(alloc, view, value, arguments, true),
            EachFilter::Reject => selected(alloc, view, value, arguments, false),
            EachFilter::SelectAttr => selected_by_part(alloc, view, value, arguments, true),
            EachFilter::RejectAttr => selected_by_part(alloc, view, value, arguments, false),
        }
    }
}

// The list of each item's part at a path.
#[tactic(auto, unfolding(crate::specs::Each::parts_made))]
fn parts_made(
    alloc: Global,
    view: &CallView<'_>,
    value: &Value,
    arguments: &[Value],
) -> Result<Value, Error>
    ensures { Tells result (makes.parts_made (seen_in view.now) value.now arguments.now) }
{
    let given = Arguments::read(&["attribute", "default"], 1, arguments)?;
    let items = items_of(alloc, view, value)?;
    let path = path_at(&given)?;
    let parts = parts_of(alloc, view, &items, path, given.at(1))?;
    list_of(alloc, parts)
}

// The part at the path of each item.
fn parts_of(
    alloc: Global,
    view: &CallView<'_>,
    items: &[Value],
    path: &Value,
    default: Option<&Value>,
) -> Result<Vec<Value>, Error>
    ensures { TellsAs (λ parts. parts.items) result
        (each (λ item. part_of (seen_in view.now) item path.now (option_copied default.entry)) items.now) }
{
    let mut parts = Vec::with_capacity(alloc, items.len())?;
    for item in items {
        parts.push(part_of(alloc, view, item, path, default)?)?;
    }
    Ok(parts)
}

fn path_at<'a>(given: &Arguments<'a>) -> Result<&'a Value, Error>
    ensures { TellsAs (λ path. path.now) result (path_at (given_by given.now 0)) }
{
    let path = given.needed(0)?;
    path_of(path)
}

/// The value as a path.
///
/// # Errors
///
/// [`ErrorKind::InvalidOperation`](template_values_errors::ErrorKind::InvalidOperation), if it is neither a text nor a whole number.
pub fn path_of(value: &Value) -> Result<&Value, Error>
    ensures { TellsAs (λ path. path.now) result (path_of value.now) }
{
    if is_path(value) { Ok(value) } else { refusal() }
}

/// The list of items.
///
/// # Errors
///
/// [`ErrorKind::InvalidOperation`](template_values_errors::ErrorKind::InvalidOperation), if it nests too deep, and
/// [`ErrorKind::OutOfMemory`](template_values_errors::ErrorKind::OutOfMemory).
pub fn list_of(alloc: Global, items: Vec<Value>) -> Result<Value, Error>
    ensures { Tells result (told (list_made items.items)) }
{
    template_values_operators::kinds::list_made(alloc, items)
}
