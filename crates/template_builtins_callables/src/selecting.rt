//! Filters that keep the items for which a test holds, or does not.
ghost use Rattle.std.specs.Prelude.{◌≡◌, ◌++◌, IfErr, OnOk, option_map};
ghost use Rattle.template_values_errors.specs.Memory.{NoMemory};
ghost use Rattle.template_builtins_arguments.specs.Answers.{Tells, TellsAs};
ghost use Rattle.template_builtins_callables.specs.Each as each;
ghost use Rattle.template_builtins_callables.specs.Each.{answers, is_wanted, kept, one_if, part_answers};
ghost use Rattle.template_builtins_callables.specs.Naming.{asked_of};
ghost use Rattle.template_callables.specs.Views.{seen_in};

use crate::each::{list_of, path_of};
use crate::naming::{Asked, is_alone, no_more, test_from, test_in};
use std::alloc::Global;
use template_builtins_arguments::{items_of, truth_of};
use template_builtins_paths::part_of;
use template_callables::CallView;
use template_values_core::Value;
use template_values_errors::{Error, ErrorKind};

/// The list of the items for which a test holds, or does not.
///
/// # Errors
///
/// - [`ErrorKind::TooManyArguments`], if no test is named and an argument is left.
/// - Those of the items of the value, of the test's name, and then of the test at an item.
#[tactic(auto, unfolding(crate::specs::Each::selected))]
pub fn selected(
    alloc: Global,
    view: &CallView<'_>,
    value: &Value,
    arguments: &[Value],
    wanted: bool,
) -> Result<Value, Error>
    ensures { Tells result (each.selected wanted (seen_in view.now) value.now arguments.now) }
{
    let named = test_in(arguments)?;
    let items = items_of(alloc, view, value)?;
    let test = test_from(named)?;
    let found = kept(alloc, view, &items, test, wanted)?;
    list_of(alloc, found)
}

/// The list of the items for whose part at a path a test holds, or does not.
///
/// # Errors
///
/// - [`ErrorKind::TooManyArguments`], if no test is named and an argument is left, and
///   [`ErrorKind::MissingArgument`], if no path is given.
/// - Those of the items of the value, of the path, of the test's name, and then of the part and the test at an item.
#[tactic(auto, unfolding(crate::specs::Each::selected_by_part))]
pub fn selected_by_part(
    alloc: Global,
    view: &CallView<'_>,
    value: &Value,
    arguments: &[Value],
    wanted: bool,
) -> Result<Value, Error>
    ensures { Tells result (each.selected_by_part wanted (seen_in view.now) value.now arguments.now) }
{
    let Some((path, rest)) = arguments.split_first() else {
        return no_path(arguments);
    };
    if is_alone(path, rest) {
        return no_path(arguments);
    }
    part_selected(alloc, view, value, path, rest, wanted)
}

// The refusal where no path is given by place.
fn no_path(arguments: &[Value]) -> Result<Value, Error>
    ensures { Tells result (each.no_path arguments.now) }
{
    no_more(arguments)?;
    Err(Error::new(ErrorKind::MissingArgument))
}

#[tactic(auto, unfolding(crate::specs::Each::part_selected))]
fn part_selected(
    alloc: Global,
    view: &CallView<'_>,
    value: &Value,
    path: &Value,
    arguments: &[Value],
    wanted: bool,
) -> Result<Value, Error>
    ensures { Tells result (each.part_selected wanted (seen_in view.now) value.now path.now arguments.now) }
{
    let named = test_in(arguments)?;
    let items = items_of(alloc, view, value)?;
    let path = path_of(path)?;
    let test = test_from(named)?;
    let found = part_kept(alloc, view, &items, path, test, wanted)?;
    list_of(alloc, found)
}

// The items for which the test answers as it is wanted.
fn kept(
    alloc: Global,
    view: &CallView<'_>,
    items: &[Value],
    test: Option<Asked<'_>>,
    wanted: bool,
) -> Result<Vec<Value>, Error>
    ensures { TellsAs (λ found. found.items) result
        (kept (answers wanted (seen_in view.now) (option_map asked_of test.entry)) items.now) }
{
    let mut found = Vec::new(alloc);
    for item in items {
        let holds = answers(alloc, view, test, item, wanted)?;
        push_if(holds, item, &mut found)?;
    }
    Ok(found)
}

// The items for whose part the test answers as it is wanted.
fn part_kept(
    alloc: Global,
    view: &CallView<'_>,
    items: &[Value],
    path: &Value,
    test: Option<Asked<'_>>,
    wanted: bool,
) -> Result<Vec<Value>, Error>
    ensures { TellsAs (λ found. found.items) result
        (kept (part_answers wanted (seen_in view.now) path.now (option_map asked_of test.entry)) items.now) }
{
    let mut found = Vec::new(alloc);
    for item in items {
        let holds = part_answers(alloc, view, path, test, item, wanted)?;
        push_if(holds, item, &mut found)?;
    }
    Ok(found)
}

fn push_if(holds: bool, item: &Value, found: &mut Vec<Value>) -> Result<(), Error>
    ensures pushed { OnOk result (found.new.items ≡ found.old.items ++ one_if holds item.now) }
    ensures refused { IfErr result NoMemory }
{
    if holds {
        found.push(item.copy()?)?;
    }
    Ok(())
}

fn part_answers(
    alloc: Global,
    view: &CallView<'_>,
    path: &Value,
    test: Option<Asked<'_>>,
    item: &Value,
    wanted: bool,
) -> Result<bool, Error>
    ensures { Tells result (part_answers wanted (seen_in view.now) path.now (option_map asked_of test.entry) item.now) }
{
    let part = part_of(alloc, view, item, path, None)?;
    answers(alloc, view, test, &part, wanted)
}

fn answers(
    alloc: Global,
    view: &CallView<'_>,
    test: Option<Asked<'_>>,
    value: &Value,
    wanted: bool,
) -> Result<bool, Error>
    ensures { Tells result (answers wanted (seen_in view.now) (option_map asked_of test.entry) value.now) }
{
    let holds = holds(alloc, view, test, value)?;
    Ok(is_wanted(wanted, holds))
}

fn is_wanted(wanted: bool, holds: bool) -> bool
    ensures { result ≡ is_wanted wanted holds }
{
    if wanted { holds } else { !holds }
}

// Whether the test holds; without one, whether the value is true.
fn holds(
    alloc: Global,
    view: &CallView<'_>,
    test: Option<Asked<'_>>,
    value: &Value,
) -> Result<bool, Error>
    ensures { Tells result (each.holds (seen_in view.now) (option_map asked_of test.entry) value.now) }
{
    let Some(asked) = test else {
        return truth_of(view, value);
    };
    let answer = asked.test.apply(alloc, view, value, asked.arguments)?;
    truth_of(view, &answer)
}
