//! Calls of methods.
ghost use Rattle.std.specs.Prelude.{◌≡◌, List, option_copied, option_map};
ghost use Rattle.template_values_model.specs.Val.{Val};
ghost use Rattle.template_values_model.specs.Lookup.{entry_at, is_text};
ghost use Rattle.template_values_core.specs.Maps.{pairs_of};
ghost use Rattle.template_values_core.specs.Shape.{pairs_in};
ghost use Rattle.template_values_forms.specs.Views.{loop_seen, macro_seen};
ghost use Rattle.template_machine_meaning.specs.Functions as functions;
ghost use Rattle.template_machine_meaning.specs.Functions.{cycled, entries_called, loop_called, macro_called, member_called, method_or};
ghost use Rattle.template_machine_operations.specs.Answers.{Answers};
ghost use Rattle.template_machine_operations.specs.Called.{ComesOr};

use crate::called::Called;
use crate::calls::call_value;
use std::alloc::Global;
use template_machine_tables::Globals;
use template_values_core::{Content, Entry, Value};
use template_values_errors::{Error, ErrorKind};
use template_values_forms::{LoopView, MacroView, Records};
use template_values_operators::refusal;

/// Calls a method of an object: what a map, a module or a namespace has under the name, or what a loop does by itself; none
/// where the object has no method of this name. As dear as [`call_value`](crate::call_value); `cycle` and `changed` take one
/// step.
///
/// # Errors
///
/// [`ErrorKind::InvalidOperation`] at a foreign record; [`ErrorKind::MissingArgument`] at `cycle` without arguments; else as
/// [`call_value`](crate::call_value).
pub fn call_method<R: Records>(
    alloc: Global,
    globals: &Globals,
    name: &str,
    object: &Value,
    args: &[Value],
    records: &R,
) -> Result<Option<Called>, Error>
    ensures { (missing : functions.Called) →
        ComesOr missing result args.now (method_or globals.now (R.known records.now) name.now object.now args.now missing) }
{
    match object.content() {
        Content::Loop(id, number) => call_of_loop(
            name,
            number,
            records.loop_view(id, number),
            args,
        ),
        Content::Macro(id, number) => call_of_macro(records.macro_view(id, number)),
        Content::Namespace(id, number) => {
            call_of_namespace(alloc, globals, name, records.namespace(id, number), args)
        }
        Content::Map(_) | Content::Module(_, _) => {
            call_member(alloc, globals, object.value_at(name), args)
        }
        _ => Ok(None),
    }
}

/// A loop gives one argument of several in turn, or compares arguments with those of the call before; a loop that is not known
/// is refused.
fn call_of_loop(
    name: &str,
    number: usize,
    view: Option<LoopView<'_>>,
    args: &[Value],
) -> Result<Option<Called>, Error>
    ensures { (missing : functions.Called) →
        ComesOr missing result args.now (loop_called name.now number (option_map loop_seen view.entry) args.now missing) }
{
    let Some(view) = view else {
        return refusal();
    };
    if name == "cycle" {
        Ok(Some(Called::Value(cycle(view.place, args)?)))
    } else if name == "changed" {
        Ok(Some(Called::Changed(number)))
    } else {
        Ok(None)
    }
}

fn cycle(place: Option<usize>, args: &[Value]) -> Result<Value, Error>
    ensures { Answers result (cycled place args.now) }
{
    if args.is_empty() {
        return Err(Error::new(ErrorKind::MissingArgument));
    }
    args[place.unwrap_or(0) % args.len()].copy()
}

/// A macro has no methods; one that is not known is refused.
fn call_of_macro(view: Option<MacroView<'_>>) -> Result<Option<Called>, Error>
    ensures { (missing : functions.Called) (args : List Val) →
        ComesOr missing result args (macro_called (option_map macro_seen view.entry) missing) }
{
    match view {
        Some(_) => Ok(None),
        None => refusal(),
    }
}

fn call_of_namespace(
    alloc: Global,
    globals: &Globals,
    name: &str,
    entries: Option<&[Entry]>,
    args: &[Value],
) -> Result<Option<Called>, Error>
    ensures { let entries = option_map (λ es. pairs_in es.now) entries.entry in (missing : functions.Called) →
        ComesOr missing result args.now (entries_called globals.now name.now entries args.now missing) }
{
    match entries {
        Some(entries) => call_member(alloc, globals, entry_at(entries, name), args),
        None => refusal(),
    }
}

/// Calls what an object has under a name.
fn call_member(
    alloc: Global,
    globals: &Globals,
    member: Option<&Value>,
    args: &[Value],
) -> Result<Option<Called>, Error>
    ensures { (missing : functions.Called) →
        ComesOr missing result args.now (member_called globals.now (option_copied member.entry) args.now missing) }
{
    match member {
        Some(callee) => Ok(Some(call_value(alloc, globals, callee, args)?)),
        None => Ok(None),
    }
}

fn entry_at<'a>(entries: &'a [Entry], name: &str) -> Option<&'a Value>
    ensures { option_copied result ≡ entry_at name.now (pairs_of (pairs_in entries.now)) }
{
    for entry in entries {
        if is_text(&entry.key, name) {
            return Some(&entry.value);
        }
    }
    None
}

fn is_text(value: &Value, name: &str) -> bool
    ensures { result ≡ is_text name.now value.now }
{
    match value.as_str() {
        Some(text) => text == name,
        None => false,
    }
}
