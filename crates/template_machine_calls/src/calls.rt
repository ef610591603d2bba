//! What the calls of templates come to.
ghost use Rattle.std.specs.Prelude.{◌≡◌, ◌∷◌, ◌-◌, [], IfNone, IfSome, Ok};
ghost use Rattle.template_machine_meaning.specs.Calls.{call_plan};
ghost use Rattle.template_machine_meaning.specs.Functions as functions;
ghost use Rattle.template_machine_meaning.specs.Functions.{filter_named, first_called, first_method, found_called, invokes, method_called, method_of, name_called, test_named, value_called};
ghost use Rattle.template_machine_meaning.specs.Keys.{Around};
ghost use Rattle.template_machine_meaning.specs.Records.{known_of};
ghost use Rattle.template_machine_meaning.specs.World.{depth_of, looked_up};
ghost use Rattle.template_machine_operations.specs.Called.{Comes};
ghost use Rattle.template_machine_calls.specs.Hosted.{around_under};
ghost use Rattle.template_machine_calls.specs.Left.{KeptUnlessValue, Planned, reached_by};

use crate::asking::{ask_filter, ask_method, ask_test, begin};
use crate::chain::conclude;
use crate::reached::{Reached, Turning};
use crate::rules::Rules;
use std::alloc::Global;
use template_callables::Callbacks;
use template_machine_going::Stop;
use template_machine_operations as values;
use template_machine_operations::Called;
use template_machine_state::State;
use template_values_core::Value;
use template_values_errors::{Error, ErrorKind};

/// What a filter comes to for arguments, the first of which is what it filters, and what it asks further: at most as much at once
/// as levels are left. Costs what the filter costs, and what it asks for.
///
/// # Errors
///
/// [`ErrorKind::UnknownFilter`] where the host has none of this name; the fault that the filter answers with, or what it asks for;
/// [`ErrorKind::InvalidOperation`] where more is asked for at once than there are levels left; [`ErrorKind::OutOfMemory`].
///
/// [`ErrorKind::UnknownFilter`]: template_values_errors::ErrorKind::UnknownFilter
/// [`ErrorKind::InvalidOperation`]: template_values_errors::ErrorKind::InvalidOperation
/// [`ErrorKind::OutOfMemory`]: template_values_errors::ErrorKind::OutOfMemory
pub fn call_filter<H: Callbacks>(
    alloc: Global,
    rules: Rules<'_>,
    host: &H,
    name: &str,
    args: &[Value],
    state: &mut State<'_>,
) -> Result<Reached, Stop>
    ensures told { (a : Around) → let around = around_under rules.entry (H.callables host.now) a in
        Planned (reached_by around) (call_plan around state.old (invokes (filter_named name.now) args.now)) result state.new }
    ensures kept { KeptUnlessValue result state.old state.new }
{
    let levels = levels_left(rules.limit, state);
    let outcome = ask_filter(rules, host, name, args, state)?;
    conclude(alloc, rules, host, levels, Vec::new(alloc), outcome, state)
}

/// What a test comes to for arguments, the first of which is what it tests, and what it asks further, as [`call_filter`].
///
/// # Errors
///
/// [`ErrorKind::UnknownTest`] where the host has none of this name; else as [`call_filter`].
///
/// [`ErrorKind::UnknownTest`]: template_values_errors::ErrorKind::UnknownTest
pub fn call_test<H: Callbacks>(
    alloc: Global,
    rules: Rules<'_>,
    host: &H,
    name: &str,
    args: &[Value],
    state: &mut State<'_>,
) -> Result<Reached, Stop>
    ensures told { (a : Around) → let around = around_under rules.entry (H.callables host.now) a in
        Planned (reached_by around) (call_plan around state.old (invokes (test_named name.now) args.now)) result state.new }
    ensures kept { KeptUnlessValue result state.old state.new }
{
    let levels = levels_left(rules.limit, state);
    let outcome = ask_test(rules, host, name, args, state)?;
    let mut turnings = Vec::new(alloc);
    match turnings.push(Turning::Truth) {
        Ok(()) => conclude(alloc, rules, host, levels, turnings, outcome, state),
        Err(refused) => Err(Stop::Want(refused.into())),
    }
}

/// What the value under a name comes to that is called with arguments, and what it asks further, as [`call_filter`].
///
/// # Errors
///
/// [`ErrorKind::UnknownFunction`] where nothing stands under the name; [`ErrorKind::InvalidOperation`] at a value that cannot be
/// called; else as [`call_filter`].
///
/// [`ErrorKind::UnknownFunction`]: template_values_errors::ErrorKind::UnknownFunction
/// [`ErrorKind::InvalidOperation`]: template_values_errors::ErrorKind::InvalidOperation
pub fn call_found<H: Callbacks>(
    alloc: Global,
    rules: Rules<'_>,
    host: &H,
    name: &str,
    args: Vec<Value>,
    state: &mut State<'_>,
) -> Result<Reached, Stop>
    ensures told { (a : Around) → let around = around_under rules.entry (H.callables host.now) a in
        let called = found_called state.old.globals (looked_up name.now state.old) args.items in
        Planned (reached_by around) (call_plan around state.old called) result state.new }
    ensures kept { KeptUnlessValue result state.old state.new }
{
    let found = state.looked_up(name)?;
    let called = values::call_found(alloc, state.globals(), found, args.as_slice())?;
    call(alloc, rules, host, called, args, state)
}

// What a name stands for is called with arguments.
//
// # Errors
//
// Those of `values::call_named` and `call`.
pub(crate) fn call_named<H: Callbacks>(
    alloc: Global,
    rules: Rules<'_>,
    host: &H,
    name: &str,
    args: Vec<Value>,
    state: &mut State<'_>,
) -> Result<Reached, Stop>
    ensures told { (a : Around) → let around = around_under rules.entry (H.callables host.now) a in
        let called = name_called state.old.globals (looked_up name.now state.old) args.items in
        Planned (reached_by around) (call_plan around state.old called) result state.new }
    ensures kept { KeptUnlessValue result state.old state.new }
{
    let named = state.looked_up(name)?;
    let called = values::call_named(alloc, state.globals(), named, args.as_slice())?;
    call(alloc, rules, host, called, args, state)
}

// The first of the values is called with the others.
//
// # Errors
//
// `InvalidOperation` where there are none; else those of `call_value`.
pub(crate) fn call_first<H: Callbacks>(
    alloc: Global,
    rules: Rules<'_>,
    host: &H,
    taken: Vec<Value>,
    state: &mut State<'_>,
) -> Result<Reached, Stop>
    ensures told { (a : Around) → let around = around_under rules.entry (H.callables host.now) a in
        Planned (reached_by around) (call_plan around state.old (first_called state.old.globals taken.items)) result state.new }
    ensures kept { KeptUnlessValue result state.old state.new }
{
    match split_first(taken) {
        Some((callee, args)) => call_value(alloc, rules, host, callee, args, state),
        None => Err(Stop::Fault(Error::new(ErrorKind::InvalidOperation))),
    }
}

// A method of the first of the values is called with the others.
//
// # Errors
//
// `InvalidOperation` where there are none; else those of `call_method_of`.
pub(crate) fn call_first_method<H: Callbacks>(
    alloc: Global,
    rules: Rules<'_>,
    host: &H,
    name: &str,
    taken: Vec<Value>,
    state: &mut State<'_>,
) -> Result<Reached, Stop>
    ensures told { (a : Around) → let around = around_under rules.entry (H.callables host.now) a in
        let called = first_method state.old.globals (known_of state.old) name.now taken.items in
        Planned (reached_by around) (call_plan around state.old called) result state.new }
    ensures kept { KeptUnlessValue result state.old state.new }
{
    match split_first(taken) {
        Some((object, args)) => call_method_of(alloc, rules, host, name, object, args, state),
        None => Err(Stop::Fault(Error::new(ErrorKind::InvalidOperation))),
    }
}

// The first of values, and those behind it.
fn split_first(taken: Vec<Value>) -> Option<(Value, Vec<Value>)>
    ensures some { IfSome result (λ p. taken.items ≡ p.0 ∷ p.1.items) }
    ensures none { IfNone result (taken.items ≡ []) }
{
    if taken.is_empty() {
        return None;
    }
    let mut rest = taken;
    let first = rest.remove(0);
    Some((first, rest))
}

// A value is called with arguments.
//
// # Errors
//
// Those of `values::call_value` and `call`.
fn call_value<H: Callbacks>(
    alloc: Global,
    rules: Rules<'_>,
    host: &H,
    callee: Value,
    args: Vec<Value>,
    state: &mut State<'_>,
) -> Result<Reached, Stop>
    ensures told { (a : Around) → let around = around_under rules.entry (H.callables host.now) a in
        Planned (reached_by around) (call_plan around state.old (value_called state.old.globals callee args.items)) result state.new }
    ensures kept { KeptUnlessValue result state.old state.new }
{
    let called = values::call_value(alloc, state.globals(), &callee, args.as_slice())?;
    call(alloc, rules, host, called, args, state)
}

// A method of an object is called with arguments; where it has none of this name, a user's own answers for it.
//
// # Errors
//
// Those of `values::call_method` and `call`; `UnknownMethod` where nothing answers for a method that the object does not have.
fn call_method_of<H: Callbacks>(
    alloc: Global,
    rules: Rules<'_>,
    host: &H,
    name: &str,
    object: Value,
    args: Vec<Value>,
    state: &mut State<'_>,
) -> Result<Reached, Stop>
    ensures told { (a : Around) → let around = around_under rules.entry (H.callables host.now) a in
        let called = method_called state.old.globals (known_of state.old) name.now object args.items in
        Planned (reached_by around) (call_plan around state.old called) result state.new }
    ensures kept { KeptUnlessValue result state.old state.new }
{
    let method = values::call_method(
        alloc,
        state.globals(),
        name,
        &object,
        args.as_slice(),
        &*state,
    )?;
    match method {
        Some(called) => call(alloc, rules, host, called, args, state),
        None => call_missing(alloc, rules, host, name, &object, args.as_slice(), state),
    }
}

// What answers for a method that an object does not have.
//
// # Errors
//
// Those of `ask_method` and `conclude`.
fn call_missing<H: Callbacks>(
    alloc: Global,
    rules: Rules<'_>,
    host: &H,
    name: &str,
    object: &Value,
    args: &[Value],
    state: &mut State<'_>,
) -> Result<Reached, Stop>
    ensures told { (a : Around) → let around = around_under rules.entry (H.callables host.now) a in
        Planned (reached_by around) (call_plan around state.old (invokes (method_of object.now name.now) args.now)) result state.new }
    ensures kept { KeptUnlessValue result state.old state.new }
{
    let levels = levels_left(rules.limit, state);
    let outcome = ask_method(rules, host, object, name, args, state)?;
    conclude(alloc, rules, host, levels, Vec::new(alloc), outcome, state)
}

// What a call with arguments comes to.
//
// # Errors
//
// Those of `begin` and `conclude`.
fn call<H: Callbacks>(
    alloc: Global,
    rules: Rules<'_>,
    host: &H,
    called: Called,
    args: Vec<Value>,
    state: &mut State<'_>,
) -> Result<Reached, Stop>
    ensures told { (a : Around) (came : functions.Called) → Comes (Ok called) args.items came →
        let around = around_under rules.entry (H.callables host.now) a in
        Planned (reached_by around) (call_plan around state.old came) result state.new }
    ensures kept { KeptUnlessValue result state.old state.new }
{
    let levels = levels_left(rules.limit, state);
    let outcome = begin(rules, host, called, args, state)?;
    conclude(alloc, rules, host, levels, Vec::new(alloc), outcome, state)
}

// How many levels are left under a limit.
fn levels_left(limit: usize, state: &State<'_>) -> usize
    ensures { result ≡ limit - depth_of state.now }
{
    limit.saturating_sub(state.depth())
}
