//! Instructions that write nothing.
ghost use Rattle.std.specs.Prelude.{ℕ, List, Option};
ghost use Rattle.template_compiler_code.specs.View.{code_of};
ghost use Rattle.template_machine_meaning.specs.Surroundings.{Programs};
ghost use Rattle.template_machine_operands.specs.Operands.{operands_in};
ghost use Rattle.template_machine_steps.specs.Performs.{Leads, ruled};
ghost use Rattle.template_machine_perform.specs.Performs.{IsQuiet};

use crate::bounds::Bounds;
use crate::operands::{perform_on_operands, straight};
use crate::{
    begin_capture, enclose, end_capture, export_locals, get_closure, iterate, lookup,
    pop_auto_escape, pop_frame, push_auto_escape, push_did_not_iterate, push_with, set_attr,
    store_local,
};
use std::alloc::Global;
use template_compiler_code::Instruction;
use template_machine_operands::Operands;
use template_machine_state::State;
use template_machine_steps::Way;
use template_values_errors::Error;

// Does what an instruction does that neither writes nor calls, runs no template, opens and closes no loop, makes no macro, and does
// not end the run.
#[inline(never)]
pub(crate) fn perform_quietly<'env>(
    alloc: Global,
    bounds: Bounds,
    instruction: &'env Instruction<'_>,
    operands: &mut Operands,
    state: &mut State<'env>,
) -> Result<Way, Error>
    requires { IsQuiet (code_of instruction.now) }
    ensures { (program : Programs) →
        Leads (ruled program bounds.limit bounds.undefined) (code_of instruction.now) (operands_in operands.old) state.old
        result (operands_in operands.new) state.new }
{
    let mode = bounds.undefined;
    match instruction {
        Instruction::Lookup(name) => straight(lookup(state, name.as_str(), operands)),
        Instruction::StoreLocal(name) => straight(store_local(state, name.as_str(), operands)),
        Instruction::PushWith => straight(push_with(alloc, bounds.limit, state)),
        Instruction::PopFrame => straight(pop_frame(state)),
        Instruction::Iterate(to) => iterate(state, *to, operands),
        Instruction::PushDidNotIterate => straight(push_did_not_iterate(state, operands)),
        Instruction::PushAutoEscape => straight(push_auto_escape(state, operands)),
        Instruction::PopAutoEscape => straight(pop_auto_escape(state)),
        Instruction::BeginCapture(mode) => straight(begin_capture(alloc, *mode, state)),
        Instruction::EndCapture => straight(end_capture(state, operands)),
        Instruction::SetAttr(name) => straight(set_attr(alloc, name.as_str(), state, operands)),
        Instruction::Enclose(name) => straight(enclose(alloc, name.as_str(), state)),
        Instruction::GetClosure => straight(get_closure(alloc, state, operands)),
        Instruction::ExportLocals => straight(export_locals(alloc, state, operands)),
        _ => perform_on_operands(alloc, mode, instruction, state, operands),
    }
}
