//! Items in lists of some lengths.
ghost use Rattle.std.specs.Prelude.{◌≡◌, ◌++◌, ◌<◌, IfErr, IfOk, Some, option_copied, replicate};
ghost use Rattle.template_builtins_arguments.specs.Answers.{Tells, TellsAs};
ghost use Rattle.template_builtins_arguments.specs.Given.{given_by};
ghost use Rattle.template_builtins_lists.specs.Lines as lines;
ghost use Rattle.template_values_errors.specs.Memory.{NoMemory};

use crate::lists::list_from;
use std::alloc::Global;
use template_builtins_arguments::{Arguments, refusal, whole};
use template_values_core::Value;
use template_values_errors::Error;
use template_values_operators::growth::copies;
use template_values_operators::kinds::is_none;

/// The greatest number of items of a list, or of lists, that may be asked for.
pub const LINES_LIMIT: usize = 100_000;

/// How many there are to be, by an argument.
///
/// # Errors
///
/// - [`ErrorKind::MissingArgument`](template_values_errors::ErrorKind::MissingArgument), if it is not given.
/// - [`ErrorKind::InvalidOperation`](template_values_errors::ErrorKind::InvalidOperation), if it is no whole number, below 1 or past
///   [`LINES_LIMIT`].
#[tactic(auto, unfolding(crate::specs::Lines::count_from))]
pub(crate) fn count_from(given: &Arguments<'_>, number: usize) -> Result<usize, Error>
    ensures told { Tells result (lines.count_from (given_by given.now number)) }
    ensures positive { IfOk result (λ n. 0 < n) }
{
    let argument = given.needed(number)?;
    let count = whole(argument)?;
    counted(count)
}

fn counted(count: i128) -> Result<usize, Error>
    ensures told { Tells result (lines.counted count) }
    ensures positive { IfOk result (λ n. 0 < n) }
{
    if count < 1 || count > LINES_LIMIT as i128 {
        return refusal();
    }
    Ok(count as usize)
}

/// The items in lists of so many, the last of which may be shorter or is filled. Linear in the number of items.
///
/// # Errors
///
/// [`ErrorKind::InvalidOperation`](template_values_errors::ErrorKind::InvalidOperation), if a list would nest too deep.
#[tactic(auto, unfolding(crate::specs::Lines::batched))]
pub(crate) fn batched(
    alloc: Global,
    count: usize,
    filling: Option<&Value>,
    items: &[Value],
) -> Result<Value, Error>
    requires { 0 < count }
    ensures { Tells result (lines.batched count (option_copied filling.entry) items.now) }
{
    let lengths = vec![in alloc; count; items.len().div_ceil(count)]?;
    let lists = lists_cut(alloc, &lengths, count, filling, items)?;
    list_from(alloc, lists)
}

/// The items in so many lists whose lengths differ by at most one, the longer ones first, and the shorter ones filled. Linear in the
/// number of items and lists.
///
/// # Errors
///
/// [`ErrorKind::InvalidOperation`](template_values_errors::ErrorKind::InvalidOperation), if a list would nest too deep.
#[tactic(auto, unfolding(crate::specs::Lines::sliced))]
pub(crate) fn sliced(
    alloc: Global,
    count: usize,
    filling: Option<&Value>,
    items: &[Value],
) -> Result<Value, Error>
    requires { 0 < count }
    ensures { Tells result (lines.sliced count (option_copied filling.entry) items.now) }
{
    let lengths = slice_lengths(alloc, count, items.len())?;
    let longest = items.len().div_ceil(count);
    let lists = lists_cut(alloc, &lengths, longest, filling, items)?;
    list_from(alloc, lists)
}

fn slice_lengths(alloc: Global, count: usize, items: usize) -> Result<Vec<usize>, Error>
    requires { 0 < count }
    ensures made { IfOk result (λ lengths. lengths.items ≡ lines.slice_lengths count items) }
    ensures refused { IfErr result NoMemory }
{
    let longer = items % count;
    let mut lengths = vec![in alloc; items.div_ceil(count); longer]?;
    let mut others = vec![in alloc; items / count; count - longer]?;
    lengths.append(&mut others)?;
    Ok(lengths)
}

fn lists_cut(
    alloc: Global,
    lengths: &[usize],
    width: usize,
    filling: Option<&Value>,
    items: &[Value],
) -> Result<Vec<Value>, Error>
    ensures { TellsAs (λ lists. lists.items) result (lines.lists_cut lengths.now width (option_copied filling.entry) items.now) }
{
    let mut lists = Vec::with_capacity(alloc, lengths.len())?;
    let mut rest = items;
    for length in lengths {
        let (piece, left) = rest.split_at((*length).min(rest.len()));
        lists.push(filled_list(alloc, width, filling, piece)?)?;
        rest = left;
    }
    Ok(lists)
}

#[tactic(auto, unfolding(crate::specs::Lines::filled_list))]
fn filled_list(
    alloc: Global,
    width: usize,
    filling: Option<&Value>,
    items: &[Value],
) -> Result<Value, Error>
    ensures { Tells result (lines.filled_list width (option_copied filling.entry) items.now) }
{
    list_from(alloc, filled(alloc, width, filling, items)?)
}

fn filled(
    alloc: Global,
    width: usize,
    filling: Option<&Value>,
    items: &[Value],
) -> Result<Vec<Value>, Error>
    ensures made { IfOk result (λ whole. whole.items ≡ lines.filled width (option_copied filling.entry) items.now) }
    ensures refused { IfErr result NoMemory }
{
    let start = copies(alloc, items)?;
    match filling {
        None => Ok(start),
        Some(value) => filled_with(width, value, start),
    }
}

fn filled_with(width: usize, value: &Value, items: Vec<Value>) -> Result<Vec<Value>, Error>
    ensures made { IfOk result (λ whole. whole.items ≡ lines.filled width (Some value.now) items.items) }
    ensures refused { IfErr result NoMemory }
{
    if is_none(value) {
        return Ok(items);
    }
    let missing = width.saturating_sub(items.len());
    with_copies(missing, value, items)
}

// The items with so many copies of a value behind them.
fn with_copies(count: usize, value: &Value, items: Vec<Value>) -> Result<Vec<Value>, Error>
    ensures made { IfOk result (λ whole. whole.items ≡ items.items ++ replicate count value.now) }
    ensures refused { IfErr result NoMemory }
{
    let mut whole = items;
    for _made in 0..count {
        whole.push(value.copy()?)?;
    }
    Ok(whole)
}
