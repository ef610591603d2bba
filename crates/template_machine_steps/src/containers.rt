//! Containers and keyword arguments that are built of operands, and items that are unpacked or spread.
ghost use Rattle.std.specs.Prelude.{◌≡◌, ◌++◌, ℕ, List, Option, map, OnOk, IfErr};
ghost use Rattle.template_values_errors.specs.Memory.{NoMemory};
ghost use Rattle.template_values_errors.specs.declared.modes.UndefinedBehavior.{UndefinedBehavior};
ghost use Rattle.template_compiler_code.specs.Code.{single, build_list, build_tuple, build_map, build_kwargs, merge_kwargs, unpack_list, unpack_lists};
ghost use Rattle.template_machine_meaning.specs.Records.{known_of};
ghost use Rattle.template_machine_meaning.specs.Surroundings.{Programs};
ghost use Rattle.template_machine_meaning.specs.World.{World};
ghost use Rattle.template_machine_operands.specs.Operands.{operands_in};
ghost use Rattle.template_machine_steps.specs.Performs.{Performs, ruled};

use std::alloc::Global;
use template_machine_operands::Operands;
use template_machine_operations as values;
use template_values_errors::{Error, ErrorKind, UndefinedBehavior};
use template_values_forms::Records;
use template_values_items::Items;

/// Takes so many values, or a counted run where the count is left out, and gives their list. Linear in their number.
///
/// # Errors
///
/// Those of [`values::build_list`], and [`ErrorKind::BadStream`] where operands are missing, which no verified
/// code meets.
pub fn build_list(alloc: Global, count: Option<usize>, operands: &mut Operands) -> Result<(), Error>
    ensures { (program : Programs) (limit : ℕ) (mode : UndefinedBehavior) (w : World) →
        Performs (ruled program limit mode) (build_list count) (operands_in operands.old) w result (operands_in operands.new) w }
{
    let items = operands.take_handed(count)?;
    let list = values::build_list(alloc, items)?;
    operands.push(list)
}

/// Takes so many values, or a counted run where the count is left out, and gives their tuple. Linear in their number.
///
/// # Errors
///
/// Those of [`values::build_tuple`], and as [`build_list`].
pub fn build_tuple(
    alloc: Global,
    count: Option<usize>,
    operands: &mut Operands,
) -> Result<(), Error>
    ensures { (program : Programs) (limit : ℕ) (mode : UndefinedBehavior) (w : World) →
        Performs (ruled program limit mode) (build_tuple count) (operands_in operands.old) w result (operands_in operands.new) w }
{
    let items = operands.take_handed(count)?;
    let tuple = values::build_tuple(alloc, items)?;
    operands.push(tuple)
}

/// Takes so many keys, each with its value above it, and gives their map. As dear as [`values::build_map`].
///
/// # Errors
///
/// Those of [`values::build_map`], and as [`build_list`].
pub fn build_map(alloc: Global, count: usize, operands: &mut Operands) -> Result<(), Error>
    ensures { (program : Programs) (limit : ℕ) (mode : UndefinedBehavior) (w : World) →
        Performs (ruled program limit mode) (build_map count) (operands_in operands.old) w result (operands_in operands.new) w }
{
    let entries = operands.take_pairs(alloc, count)?;
    let built = values::build_map(alloc, entries)?;
    operands.push(built)
}

/// Takes so many names, each with its value above it, and gives them as keyword arguments. As dear as [`values::build_kwargs`].
///
/// # Errors
///
/// Those of [`values::build_kwargs`], and as [`build_list`].
pub fn build_kwargs(alloc: Global, count: usize, operands: &mut Operands) -> Result<(), Error>
    ensures { (program : Programs) (limit : ℕ) (mode : UndefinedBehavior) (w : World) →
        Performs (ruled program limit mode) (build_kwargs count) (operands_in operands.old) w result (operands_in operands.new) w }
{
    let entries = operands.take_pairs(alloc, count)?;
    let built = values::build_kwargs(alloc, entries)?;
    operands.push(built)
}

/// Takes a value, and gives its so many items, the first one on top. Linear in their number.
///
/// # Errors
///
/// Those of [`values::unpack`], [`ErrorKind::OutOfMemory`], and as [`build_list`].
pub fn unpack_list(alloc: Global, count: usize, operands: &mut Operands) -> Result<(), Error>
    ensures { (program : Programs) (limit : ℕ) (mode : UndefinedBehavior) (w : World) →
        Performs (ruled program limit mode) (unpack_list count) (operands_in operands.old) w result (operands_in operands.new) w }
{
    let value = operands.take()?;
    let items = values::unpack(alloc, count, value)?;
    push_items(&items, operands)
}

/// Takes so many maps, and gives one keyword map of their entries. As dear as [`values::merge_kwargs`].
///
/// # Errors
///
/// Those of [`values::merge_kwargs`], and as [`build_list`].
pub fn merge_kwargs<R: Records>(
    alloc: Global,
    mode: UndefinedBehavior,
    count: usize,
    operands: &mut Operands,
    records: &R,
) -> Result<(), Error>
    ensures { (program : Programs) (limit : ℕ) (w : World) → known_of w ≡ R.known records.now →
        Performs (ruled program limit mode) (merge_kwargs count) (operands_in operands.old) w result (operands_in operands.new) w }
{
    let maps = operands.take_many(count)?;
    let merged = values::merge_kwargs(alloc, mode, maps.as_slice(), records)?;
    operands.push(merged)
}

/// Takes so many values, and gives a counted run of their items, one behind the other: an empty one of no value. Linear in the
/// number of items.
///
/// # Errors
///
/// Those of [`values::spread`], and as [`build_list`].
pub fn unpack_lists<R: Records>(
    alloc: Global,
    count: usize,
    operands: &mut Operands,
    records: &R,
) -> Result<(), Error>
    ensures { (program : Programs) (limit : ℕ) (mode : UndefinedBehavior) (w : World) → known_of w ≡ R.known records.now →
        Performs (ruled program limit mode) (unpack_lists count) (operands_in operands.old) w result (operands_in operands.new) w }
{
    let lists = operands.take_many(count)?;
    let items = values::spread(alloc, lists.as_slice(), records)?;
    operands.push_run(alloc, items)
}

// Items go on top, the first one uppermost.
fn push_items(items: &Items, operands: &mut Operands) -> Result<(), Error>
    ensures pushed { OnOk result (operands_in operands.new ≡ map single items.now ++ operands_in operands.old) }
    ensures refused { IfErr result NoMemory }
{
    let count = items.len();
    for passed in 0..count {
        let item = match items.get(count - 1 - passed) {
            Some(item) => item.copy()?,
            None => return Err(Error::new(ErrorKind::BadStream)),
        };
        operands.push(item)?;
    }
    Ok(())
}
