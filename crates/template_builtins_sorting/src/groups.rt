//! Items of equal parts, together.
ghost use Rattle.std.specs.Prelude.{◌≡◌, Err, IfErr, IfOk, Ok, map, option_copied};
ghost use Rattle.template_values_errors.specs.Memory.{NoMemory};
ghost use Rattle.template_builtins_arguments.specs.Answers.{Tells, TellsAs};
ghost use Rattle.template_builtins_arguments.specs.Given.{given_by};
ghost use Rattle.template_builtins_sorting.specs.Groups as groups;
ghost use Rattle.template_builtins_sorting.specs.Keys.{each};
ghost use Rattle.template_builtins_sorting.specs.Runs.{held_by};
ghost use Rattle.template_callables.specs.Views.{seen_in};

use crate::alike::{Run, one, runs};
use crate::keyed::sort_keyed;
use crate::keys::{keyed, pair};
use std::alloc::Global;
use template_builtins_arguments::{Arguments, items_of, refusal};
use template_builtins_paths::{is_path, part_of};
use template_callables::CallView;
use template_values_core::Value;
use template_values_errors::Error;
use template_values_operators::kinds::list_made;

/// The groups of the items whose parts are equal, in the order of these. Takes n log n comparisons for n items.
///
/// # Errors
///
/// Those of [`SortingFilter::apply`](crate::SortingFilter::apply).
#[tactic(auto, unfolding(crate::specs::Groups::grouped))]
pub fn group(
    alloc: Global,
    view: &CallView<'_>,
    value: &Value,
    arguments: &[Value],
) -> Result<Value, Error>
    ensures { Tells result (groups.grouped (seen_in view.now) value.now arguments.now) }
{
    let arguments = Arguments::read(&["attribute", "default", "case_sensitive"], 1, arguments)?;
    let items = items_of(alloc, view, value)?;
    group_items(alloc, view, &arguments, items.as_slice())
}

#[tactic(auto, unfolding(crate::specs::Groups::grouped_items))]
fn group_items(
    alloc: Global,
    view: &CallView<'_>,
    arguments: &Arguments<'_>,
    items: &[Value],
) -> Result<Value, Error>
    ensures { Tells result (groups.grouped_items (seen_in view.now) (given_by arguments.now) items.now) }
{
    let path = path_from(arguments.needed(0)?)?;
    let is_cased = arguments.flag(view, 2, false)?;
    groups(alloc, view, path, arguments.at(1), is_cased, items)
}

fn path_from(attribute: &Value) -> Result<&Value, Error>
    ensures { TellsAs (λ path. path.now) result (groups.path_from attribute.now) }
{
    if is_path(attribute) {
        Ok(attribute)
    } else {
        refusal()
    }
}

// The groups of the items whose parts are equal, in the order of these.
#[tactic(auto, unfolding(crate::specs::Groups::groups))]
fn groups(
    alloc: Global,
    view: &CallView<'_>,
    path: &Value,
    default: Option<&Value>,
    is_cased: bool,
    items: &[Value],
) -> Result<Value, Error>
    ensures { Tells result (groups.groups (seen_in view.now) path.now (option_copied default.entry) is_cased items.now) }
{
    let paths = one(alloc, path)?;
    let keyed = keyed(alloc, view, paths.as_slice(), default, is_cased, items)?;
    let sorted = sort_keyed(keyed, false)?;
    let runs = runs(alloc, sorted.as_slice())?;
    list_made(
        alloc,
        groups_of(alloc, view, path, default, runs.as_slice())?,
    )
}

#[tactic(auto, using(crate::proofs::Steps::in_turn_of))]
fn groups_of(
    alloc: Global,
    view: &CallView<'_>,
    path: &Value,
    default: Option<&Value>,
    runs: &[Run],
) -> Result<Vec<Value>, Error>
    ensures { TellsAs (λ v. v.items) result
        (each (groups.group_of (seen_in view.now) path.now (option_copied default.entry)) (map held_by runs.now)) }
{
    let mut groups = Vec::new(alloc);
    for run in runs {
        groups.push(group_of(alloc, view, path, default, run)?)?;
    }
    Ok(groups)
}

// A tuple of the first one's part and the list of items.
#[tactic(auto, unfolding(crate::specs::Groups::group_of))]
fn group_of(
    alloc: Global,
    view: &CallView<'_>,
    path: &Value,
    default: Option<&Value>,
    run: &Run,
) -> Result<Value, Error>
    ensures { Tells result (groups.group_of (seen_in view.now) path.now (option_copied default.entry) (held_by run.now)) }
{
    let part = part_of(alloc, view, &run.first, path, default)?;
    let items = list_made(alloc, copies(alloc, run.items.as_slice())?)?;
    pair(alloc, &part, &items)
}

fn copies(alloc: Global, items: &[Value]) -> Result<Vec<Value>, Error>
    ensures same { IfOk result (λ v. v.items ≡ items.now) }
    ensures refused { IfErr result NoMemory }
{
    let mut copies = Vec::with_capacity(alloc, items.len())?;
    for item in items {
        copies.push(item.copy()?)?;
    }
    Ok(copies)
}
