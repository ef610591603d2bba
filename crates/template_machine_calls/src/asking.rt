//! Calls of a user's own, and what is asked further.
ghost use Rattle.std.specs.Prelude.{ℕ, Ok};
ghost use Rattle.template_callables.specs.Answers.{asked_by};
ghost use Rattle.template_machine_meaning.specs.Calls.{called_plan};
ghost use Rattle.template_machine_meaning.specs.Functions as functions;
ghost use Rattle.template_machine_meaning.specs.Functions.{filter_named, test_named, function_numbered, method_of};
ghost use Rattle.template_machine_meaning.specs.Keys.{Around};
ghost use Rattle.template_machine_operations.specs.Called.{Comes};
ghost use Rattle.template_machine_state.specs.Changes.{OnlyTemps};
ghost use Rattle.template_machine_calls.specs.Hosted.{around_under};
ghost use Rattle.template_machine_calls.specs.Left.{Going, KeepsWorld, Planned, asked_plan, left_by, raw_plan};

use crate::heard::heard;
use crate::outcome::Outcome;
use crate::reached::Entering;
use crate::rules::Rules;
use std::alloc::Global;
use template_callables::{Callbacks, Further};
use template_machine_going::Stop;
use template_machine_operations as values;
use template_machine_operations::Called;
use template_machine_state::State;
use template_values_core::Value;
use template_values_errors::ErrorKind;

// What a filter comes to so far.
//
// # Errors
//
// `UnknownFilter` where there is none of this name; else those of `heard`.
pub(crate) fn ask_filter<H: Callbacks>(
    rules: Rules<'_>,
    host: &H,
    name: &str,
    args: &[Value],
    state: &mut State<'_>,
) -> Result<Outcome, Stop>
    ensures comes { (a : Around) (pending : ℕ) (go : Going) → let around = around_under rules.entry (H.callables host.now) a in
        Planned (left_by around pending go) (raw_plan around go state.old (filter_named name.now) args.now) result state.new }
    ensures kept { OnlyTemps state.old state.new }
{
    let view = state.view(rules.name, rules.undefined);
    let answer = host.filter(name, &view, args);
    heard(answer, ErrorKind::UnknownFilter, state)
}

// What a test comes to so far: a value that is not taken for true or false yet.
//
// # Errors
//
// `UnknownTest` where there is none of this name; else those of `heard`.
pub(crate) fn ask_test<H: Callbacks>(
    rules: Rules<'_>,
    host: &H,
    name: &str,
    args: &[Value],
    state: &mut State<'_>,
) -> Result<Outcome, Stop>
    ensures comes { (a : Around) (pending : ℕ) (go : Going) → let around = around_under rules.entry (H.callables host.now) a in
        Planned (left_by around pending go) (raw_plan around go state.old (test_named name.now) args.now) result state.new }
    ensures kept { OnlyTemps state.old state.new }
{
    let view = state.view(rules.name, rules.undefined);
    let answer = host.test(name, &view, args);
    heard(answer, ErrorKind::UnknownTest, state)
}

// What a function that a user gave comes to so far.
//
// # Errors
//
// `InvalidOperation` where there is none of this number; else those of `heard`.
fn ask_function<H: Callbacks>(
    rules: Rules<'_>,
    host: &H,
    number: usize,
    args: &[Value],
    state: &mut State<'_>,
) -> Result<Outcome, Stop>
    ensures comes { (a : Around) (pending : ℕ) (go : Going) → let around = around_under rules.entry (H.callables host.now) a in
        Planned (left_by around pending go) (raw_plan around go state.old (function_numbered number) args.now) result state.new }
    ensures kept { OnlyTemps state.old state.new }
{
    let view = state.view(rules.name, rules.undefined);
    let answer = host.function(number, &view, args);
    heard(answer, ErrorKind::InvalidOperation, state)
}

// What a method comes to so far that the object does not have.
//
// # Errors
//
// `UnknownMethod` where nothing answers for it; else those of `heard`.
pub(crate) fn ask_method<H: Callbacks>(
    rules: Rules<'_>,
    host: &H,
    object: &Value,
    name: &str,
    args: &[Value],
    state: &mut State<'_>,
) -> Result<Outcome, Stop>
    ensures comes { (a : Around) (pending : ℕ) (go : Going) → let around = around_under rules.entry (H.callables host.now) a in
        Planned (left_by around pending go) (raw_plan around go state.old (method_of object.now name.now) args.now) result state.new }
    ensures kept { OnlyTemps state.old state.new }
{
    let view = state.view(rules.name, rules.undefined);
    let answer = host.method(object, name, &view, args);
    heard(answer, ErrorKind::UnknownMethod, state)
}

// What a call with arguments comes to so far: the state makes the namespace, and knows whether `changed` was called with others
// before; a user's own is asked; macros and rounds are to be entered.
//
// # Errors
//
// Those of `ask_function`, and `OutOfMemory`.
pub(crate) fn begin<H: Callbacks>(
    rules: Rules<'_>,
    host: &H,
    called: Called,
    args: Vec<Value>,
    state: &mut State<'_>,
) -> Result<Outcome, Stop>
    ensures comes { (a : Around) (pending : ℕ) (go : Going) (came : functions.Called) → Comes (Ok called) args.items came →
        let around = around_under rules.entry (H.callables host.now) a in
        Planned (left_by around pending go) (called_plan around pending go state.old came) result state.new }
    ensures kept { KeepsWorld result state.old state.new }
{
    match called {
        Called::Value(value) => Ok(Outcome::Value(value)),
        Called::Namespace(entries) => Ok(Outcome::Value(state.make_namespace(entries)?)),
        Called::Changed(number) => {
            let changed = state.changed(number, args)?;
            Ok(Outcome::Value(Value::from_bool(changed)))
        }
        Called::Function(number) => ask_function(rules, host, number, args.as_slice(), state),
        Called::Macro(id, number) => Ok(Outcome::Enters(Entering::Macro(id, number, args))),
        Called::Rounds(id, number) => Ok(Outcome::Enters(Entering::Rounds(id, number, args))),
    }
}

// What is asked further comes to so far; its value is not turned yet: a test's not taken for true or false, that of a macro by its
// name not printed.
//
// # Errors
//
// Those of the call, the filter or the test; `UnknownFunction` where the name of a macro stands for nothing; and `OutOfMemory`.
pub(crate) fn ask<H: Callbacks>(
    alloc: Global,
    rules: Rules<'_>,
    host: &H,
    further: Further,
    state: &mut State<'_>,
) -> Result<Outcome, Stop>
    ensures comes { (a : Around) (pending : ℕ) (go : Going) → let around = around_under rules.entry (H.callables host.now) a in
        Planned (left_by around pending go) (asked_plan around pending go state.old (asked_by further)) result state.new }
    ensures kept { KeepsWorld result state.old state.new }
{
    match further {
        Further::Call(callee, args) => {
            let called = values::call_value(alloc, state.globals(), &callee, args.as_slice())?;
            begin(rules, host, called, args, state)
        }
        Further::Filter(name, args) => {
            ask_filter(rules, host, name.as_str(), args.as_slice(), state)
        }
        Further::Test(name, args) => {
            ask_test(rules, host, name.as_str(), args.as_slice(), state)
        }
        Further::Lookup(name) => Ok(Outcome::Value(state.lookup(name.as_str())?)),
        Further::Macro(name, args) => {
            let found = state.looked_up(name.as_str())?;
            let called = values::call_found(alloc, state.globals(), found, args.as_slice())?;
            begin(rules, host, called, args, state)
        }
        Further::Block(name) => Ok(Outcome::Enters(Entering::Block(name))),
    }
}
