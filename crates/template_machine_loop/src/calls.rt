//! The instructions that call.
ghost use Rattle.std.specs.Prelude.{◌≡◌};
ghost use Rattle.template_compiler_code.specs.View.{code_of};
ghost use Rattle.template_machine_calls.specs.Hosted.{hosted};
ghost use Rattle.template_machine_meaning.specs.Surroundings.{Programs};
ghost use Rattle.template_machine_operands.specs.Operands.{operands_in};
ghost use Rattle.template_machine_calls.specs.Calls.{Calls as CallsSo};
ghost use Rattle.template_machine_loop.specs.Programs.{task_of};
ghost use Rattle.template_machine_loop.specs.declared.tasks.Task.TheVariants.{Calls};

use crate::writing::stopped_at;
use std::alloc::Global;
use template_callables::Callbacks;
use template_compiler_code::{Instruction, Instructions};
use template_machine_calls::{
    Entry, Rules, apply_filter, call_function, call_method, call_object, perform_test,
};
use template_machine_going::Stop;
use template_machine_operands::Operands;
use template_machine_state::State;
use template_values_errors::{Error, ErrorKind};

// Does what an instruction does that calls, once it is paid, or tells what is to be entered. It stands alone, so that others have
// nothing of it.
//
// # Errors
//
// The fault of the call; `OutOfMemory`; and `BadStream` where operands are missing, which no verified code meets.
#[cold]
#[inline(never)]
pub(crate) fn call<H: Callbacks>(
    alloc: Global,
    rules: Rules<'_>,
    host: &H,
    code: &Instructions<'_>,
    instruction: &Instruction<'_>,
    place: u32,
    operands: &mut Operands,
    state: &mut State<'_>,
) -> Result<Option<Entry>, Stop>
    requires { task_of (code_of instruction.now) ≡ Calls }
    ensures { (program : Programs) →
        CallsSo (hosted rules.entry (H.callables host.now) program) (code_of instruction.now) (operands_in operands.old) state.old
        result (operands_in operands.new) state.new }
{
    match called(alloc, rules, host, instruction, operands, state) {
        Ok(entry) => Ok(entry),
        Err(stop) => Err(stopped_at(code, place, stop)),
    }
}

// As `call`; the stop has no place yet.
#[inline(always)]
fn called<H: Callbacks>(
    alloc: Global,
    rules: Rules<'_>,
    host: &H,
    instruction: &Instruction<'_>,
    operands: &mut Operands,
    state: &mut State<'_>,
) -> Result<Option<Entry>, Stop>
    requires { task_of (code_of instruction.now) ≡ Calls }
    ensures { (program : Programs) →
        CallsSo (hosted rules.entry (H.callables host.now) program) (code_of instruction.now) (operands_in operands.old) state.old
        result (operands_in operands.new) state.new }
{
    match instruction {
        Instruction::ApplyFilter(name, count, _) => {
            apply_filter(alloc, rules, host, name.as_str(), *count, state, operands)
        }
        Instruction::PerformTest(name, count, _) => {
            perform_test(alloc, rules, host, name.as_str(), *count, state, operands)
        }
        Instruction::CallFunction(name, count) => {
            call_function(alloc, rules, host, name.as_str(), *count, state, operands)
        }
        Instruction::CallMethod(name, count) => {
            call_method(alloc, rules, host, name.as_str(), *count, state, operands)
        }
        Instruction::CallObject(count) => {
            call_object(alloc, rules, host, *count, state, operands)
        }
        _ => Err(Stop::Fault(Error::new(ErrorKind::BadStream))),
    }
}
