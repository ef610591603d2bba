//! The parts of items.
ghost use Rattle.std.specs.Prelude.{option_copied};
ghost use Rattle.template_builtins_arguments.specs.Answers.{Tells, TellsAs};
ghost use Rattle.template_builtins_paths.specs.Items as many;
ghost use Rattle.template_builtins_paths.specs.Paths.{part_of};
ghost use Rattle.template_callables.specs.Views.{seen_in};

use crate::parts::{is_path, part_of};
use std::alloc::Global;
use template_builtins_arguments::refusal;
use template_callables::CallView;
use template_values_core::Value;
use template_values_errors::Error;
use template_values_operators::kinds::is_none;

/// An argument that is a path, or `none`.
///
/// # Errors
///
/// [`ErrorKind::InvalidOperation`](template_values_errors::ErrorKind::InvalidOperation), if it is another kind of value.
pub fn path_from(argument: Option<&Value>) -> Result<Option<&Value>, Error>
    ensures { TellsAs (λ path. option_copied path) result (many.path_from (option_copied argument.entry)) }
{
    match argument {
        None => Ok(None),
        Some(value) => path_in(value),
    }
}

fn path_in(value: &Value) -> Result<Option<&Value>, Error>
    ensures { TellsAs (λ path. option_copied path) result (many.path_from (Some value.now)) }
{
    if is_none(value) {
        Ok(None)
    } else if is_path(value) {
        Ok(Some(value))
    } else {
        refusal()
    }
}

/// The part of a value at a path; without a path a copy of the value.
///
/// # Errors
///
/// Those of [`part_of`].
#[tactic(auto, unfolding(crate::specs::Items::part_or_self))]
pub fn part_or_self(
    alloc: Global,
    view: &CallView<'_>,
    path: Option<&Value>,
    value: &Value,
) -> Result<Value, Error>
    ensures { Tells result (many.part_or_self (seen_in view.now) (option_copied path.entry) value.now) }
{
    match path {
        None => value.copy(),
        Some(path) => part_of(alloc, view, value, path, None),
    }
}

/// The parts of items at a path; without a path the items. Linear in their number and in what each part takes.
///
/// # Errors
///
/// Those of [`part_of`].
#[tactic(auto, unfolding(crate::specs::Items::parts_at))]
pub fn parts_at(
    alloc: Global,
    view: &CallView<'_>,
    path: Option<&Value>,
    items: Vec<Value>,
) -> Result<Vec<Value>, Error>
    ensures { TellsAs (λ parts. parts.items) result (many.parts_at (seen_in view.now) (option_copied path.entry) items.items) }
{
    match path {
        None => Ok(items),
        Some(path) => each_part(alloc, view, path, &items),
    }
}

fn each_part(
    alloc: Global,
    view: &CallView<'_>,
    path: &Value,
    items: &[Value],
) -> Result<Vec<Value>, Error>
    ensures { TellsAs (λ parts. parts.items) result (many.each (λ item. part_of (seen_in view.now) item path.now None) items.now) }
{
    let mut parts = Vec::with_capacity(alloc, items.len())?;
    for item in items {
        parts.push(part_of(alloc, view, item, path, None)?)?;
    }
    Ok(parts)
}
