//! The instructions that call.
ghost use Rattle.std.specs.Prelude.{◌≡◌, ℕ, false};
ghost use Rattle.template_compiler_code.specs.Code.{apply_filter, call_function, call_method, call_object, perform_test};
ghost use Rattle.template_compiler_walk.specs.Statements.{is_super_name};
ghost use Rattle.template_machine_meaning.specs.Surroundings.{Programs};
ghost use Rattle.template_machine_operands.specs.Operands.{operands_in};
ghost use Rattle.template_machine_calls.specs.Calls.{Calls, Puts};
ghost use Rattle.template_machine_calls.specs.Hosted.{hosted};

use crate::calls::{call_filter, call_first, call_first_method, call_named, call_test};
use crate::reached::{Entry, Reached};
use crate::rules::Rules;
use crate::turning::turn_all;
use std::alloc::Global;
use template_callables::Callbacks;
use template_machine_going::Stop;
use template_machine_operands::Operands;
use template_machine_state::State;

/// Takes so many values, or a counted run where the count is left out, and calls what a name stands for with them; the name is not
/// `super`, which the machine calls by itself. A value is put on top; or it tells what is to be entered, in the state as it is then.
/// As dear as [`State::looked_up`] and the call.
///
/// # Errors
///
/// [`ErrorKind::UnknownFunction`] where the name stands for nothing, and [`ErrorKind::InvalidOperation`] at what is no function
/// of the environment; what the function refuses, or what it asks for; [`ErrorKind::InvalidOperation`] where more is asked for
/// at once than there are levels left; [`ErrorKind::OutOfMemory`], and [`ErrorKind::BadStream`] where operands are missing, which
/// no verified code meets.
///
/// [`ErrorKind::UnknownFunction`]: template_values_errors::ErrorKind::UnknownFunction
/// [`ErrorKind::InvalidOperation`]: template_values_errors::ErrorKind::InvalidOperation
/// [`ErrorKind::OutOfMemory`]: template_values_errors::ErrorKind::OutOfMemory
/// [`ErrorKind::BadStream`]: template_values_errors::ErrorKind::BadStream
#[cold]
#[inline(never)]
pub fn call_function<H: Callbacks>(
    alloc: Global,
    rules: Rules<'_>,
    host: &H,
    name: &str,
    count: Option<u16>,
    state: &mut State<'_>,
    operands: &mut Operands,
) -> Result<Option<Entry>, Stop>
    requires { is_super_name name.now ≡ false }
    ensures { (program : Programs) →
        Calls (hosted rules.entry (H.callables host.now) program) (call_function name.now count) (operands_in operands.old) state.old
        result (operands_in operands.new) state.new }
{
    let args = operands.take_handed(widened(count))?;
    let reached = call_named(alloc, rules, host, name, args, state)?;
    put(alloc, reached, state, operands)
}

/// Takes so many values, or a counted run where the count is left out, and calls a method of the first with the others. As dear
/// as the method; `changed` of a loop is as dear as [`State::changed`].
///
/// # Errors
///
/// [`ErrorKind::UnknownMethod`] where the first has no method of this name, and nothing answers for it;
/// [`ErrorKind::InvalidOperation`] at a foreign record, and where there are no values at all; else as [`call_function`].
///
/// [`ErrorKind::UnknownMethod`]: template_values_errors::ErrorKind::UnknownMethod
/// [`ErrorKind::InvalidOperation`]: template_values_errors::ErrorKind::InvalidOperation
#[cold]
#[inline(never)]
pub fn call_method<H: Callbacks>(
    alloc: Global,
    rules: Rules<'_>,
    host: &H,
    name: &str,
    count: Option<u16>,
    state: &mut State<'_>,
    operands: &mut Operands,
) -> Result<Option<Entry>, Stop>
    ensures { (program : Programs) →
        Calls (hosted rules.entry (H.callables host.now) program) (call_method name.now count) (operands_in operands.old) state.old
        result (operands_in operands.new) state.new }
{
    let taken = operands.take_handed(widened(count))?;
    let reached = call_first_method(alloc, rules, host, name, taken, state)?;
    put(alloc, reached, state, operands)
}

/// Takes so many values, or a counted run where the count is left out, and calls the first with the others. As dear as the
/// function.
///
/// # Errors
///
/// [`ErrorKind::InvalidOperation`] where there are no values at all; else as [`call_function`].
///
/// [`ErrorKind::InvalidOperation`]: template_values_errors::ErrorKind::InvalidOperation
#[cold]
#[inline(never)]
pub fn call_object<H: Callbacks>(
    alloc: Global,
    rules: Rules<'_>,
    host: &H,
    count: Option<u16>,
    state: &mut State<'_>,
    operands: &mut Operands,
) -> Result<Option<Entry>, Stop>
    ensures { (program : Programs) →
        Calls (hosted rules.entry (H.callables host.now) program) (call_object count) (operands_in operands.old) state.old
        result (operands_in operands.new) state.new }
{
    let taken = operands.take_handed(widened(count))?;
    let reached = call_first(alloc, rules, host, taken, state)?;
    put(alloc, reached, state, operands)
}

/// Takes so many values, or a counted run where the count is left out, and filters the first, as [`call_filter`].
///
/// # Errors
///
/// Those of [`call_filter`], and [`ErrorKind::BadStream`] where operands are missing, which no verified code meets.
///
/// [`call_filter`]: crate::call_filter
/// [`ErrorKind::BadStream`]: template_values_errors::ErrorKind::BadStream
#[cold]
#[inline(never)]
pub fn apply_filter<H: Callbacks>(
    alloc: Global,
    rules: Rules<'_>,
    host: &H,
    name: &str,
    count: Option<u16>,
    state: &mut State<'_>,
    operands: &mut Operands,
) -> Result<Option<Entry>, Stop>
    ensures { (program : Programs) (number : ℕ) →
        Calls (hosted rules.entry (H.callables host.now) program) (apply_filter name.now count number) (operands_in operands.old) state.old
        result (operands_in operands.new) state.new }
{
    let values = operands.take_handed(widened(count))?;
    let reached = call_filter(alloc, rules, host, name, values.as_slice(), state)?;
    put(alloc, reached, state, operands)
}

/// Takes so many values, or a counted run where the count is left out, and tests the first, as [`call_test`].
///
/// # Errors
///
/// Those of [`call_test`], and [`ErrorKind::BadStream`] where operands are missing, which no verified code meets.
///
/// [`call_test`]: crate::call_test
/// [`ErrorKind::BadStream`]: template_values_errors::ErrorKind::BadStream
#[cold]
#[inline(never)]
pub fn perform_test<H: Callbacks>(
    alloc: Global,
    rules: Rules<'_>,
    host: &H,
    name: &str,
    count: Option<u16>,
    state: &mut State<'_>,
    operands: &mut Operands,
) -> Result<Option<Entry>, Stop>
    ensures { (program : Programs) (number : ℕ) →
        Calls (hosted rules.entry (H.callables host.now) program) (perform_test name.now count number) (operands_in operands.old) state.old
        result (operands_in operands.new) state.new }
{
    let values = operands.take_handed(widened(count))?;
    let reached = call_test(alloc, rules, host, name, values.as_slice(), state)?;
    put(alloc, reached, state, operands)
}

// Puts the value of a call on top, once it is turned, or tells what is entered.
//
// # Errors
//
// Those of `turn_all`, and `OutOfMemory`.
fn put(
    alloc: Global,
    reached: Reached,
    state: &State<'_>,
    operands: &mut Operands,
) -> Result<Option<Entry>, Stop>
    ensures { Puts reached state.now (operands_in operands.old) result (operands_in operands.new) }
{
    match reached {
        Reached::Value(value, turnings) => {
            let turned = turn_all(alloc, turnings, value, state)?;
            operands.push(turned)?;
            Ok(None)
        }
        Reached::Enters(entry) => Ok(Some(entry)),
    }
}

// The count of an instruction, as it is taken.
fn widened(count: Option<u16>) -> Option<usize>
    ensures { result ≡ count }
{
    match count {
        Some(count) => Some(usize::from(count)),
        None => None,
    }
}
