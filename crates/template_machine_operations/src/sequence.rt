//! Values in order: what a loop goes over, what is unpacked, and what an include chooses from.
ghost use Rattle.std.specs.Prelude.{◌≡◌, is_ok};
ghost use Rattle.template_values_model.specs.Gives.{Gives};
ghost use Rattle.template_values_operators.specs.Iterated.{iterated};
ghost use Rattle.template_machine_meaning.specs.Undefined.{forbids_iterating};
ghost use Rattle.template_machine_meaning.specs.Surroundings.{unpacked, unpacked_into};
ghost use Rattle.template_machine_meaning.specs.Includes.{choices_in};
ghost use Rattle.template_machine_meaning.specs.Replies.{guarded, kinded};
ghost use Rattle.template_machine_operations.specs.Answers.{Answers};

use crate::refusal;
use crate::undefined::forbids_iterating;
use std::alloc::Global;
use template_values_core::{Content, Value};
use template_values_errors::{Error, ErrorKind, UndefinedBehavior};
use template_values_forms::{NoRecords, Records};
use template_values_items::{Items, items_of};

/// What a loop goes over: the items of a list or tuple, which are shared, at once; the characters of a
/// text and the keys of a map, keyword map, module or namespace, in time linear in their number;
/// nothing for none and undefined.
///
/// # Errors
///
/// [`ErrorKind::UndefinedError`] where the mode forbids to go over an undefined value;
/// [`ErrorKind::InvalidOperation`] at other values and at a foreign namespace;
/// [`ErrorKind::OutOfMemory`].
pub fn iterate<R: Records>(
    alloc: Global,
    mode: UndefinedBehavior,
    value: Value,
    records: &R,
) -> Result<Items, Error>
    ensures { let forbidden = forbids_iterating mode value in
        Answers result (guarded forbidden (kinded (iterated (R.known records.now) value))) }
{
    if forbids_iterating(mode, &value) {
        return refusal();
    }
    gone_over(alloc, value, records)
}

fn gone_over<R: Records>(alloc: Global, value: Value, records: &R) -> Result<Items, Error>
    ensures { Gives result (iterated (R.known records.now) value) }
{
    match value.content() {
        Content::List(_) | Content::Tuple(_) => Ok(Items::items_of(value)),
        _ => Ok(Items::made(items_of(alloc, &value, records)?)),
    }
}

/// What is unpacked into so many targets: the items of a list or tuple, which are shared, or the keys of
/// a map, in time linear in their number. It is found at once whether there are so many.
///
/// # Errors
///
/// [`ErrorKind::CannotUnpack`] at other values, and where there are more or fewer of them;
/// [`ErrorKind::OutOfMemory`].
pub fn unpack(alloc: Global, count: usize, value: Value) -> Result<Items, Error>
    ensures { Answers result (unpacked_into count (unpacked value)) }
{
    if unpacks_into(count, &value) {
        gone_over(alloc, value, &NoRecords)
    } else {
        Err(Error::new(ErrorKind::CannotUnpack))
    }
}

/// Whether so many values are unpacked of it.
fn unpacks_into(count: usize, value: &Value) -> bool
    ensures { result ≡ is_ok (unpacked_into count (unpacked value.now)) }
{
    match value.content() {
        Content::List(items) => items.len() == count,
        Content::Tuple(items) => items.len() == count,
        Content::Map(entries) => entries.len() == count,
        _ => false,
    }
}

/// The names that an include chooses from: a text is one, the items of a list or tuple and the keys of
/// a map, keyword map, module or namespace are theirs in order. Keys are gathered, in time linear in
/// their number; all else is shared.
///
/// # Errors
///
/// [`ErrorKind::InvalidOperation`] at other values and at a foreign namespace;
/// [`ErrorKind::OutOfMemory`].
pub fn choices_in<R: Records>(alloc: Global, value: Value, records: &R) -> Result<Items, Error>
    ensures { Answers result (choices_in (R.known records.now) value) }
{
    match value.content() {
        Content::Text(_) | Content::SafeText(_) => Ok(Items::one(value)),
        Content::List(_) | Content::Tuple(_) => Ok(Items::items_of(value)),
        Content::Map(_)
        | Content::KeywordMap(_)
        | Content::Module(_, _)
        | Content::Namespace(_, _) => Ok(Items::made(items_of(alloc, &value, records)?)),
        _ => Err(Error::new(ErrorKind::InvalidOperation)),
    }
}
