//! Instructions that only take and give operands.
ghost use Rattle.std.specs.Prelude.{◌≡◌, ℕ, None};
ghost use Rattle.template_compiler_code.specs.Code.{operator_in};
ghost use Rattle.template_compiler_code.specs.View.{code_of, comparison_of};
ghost use Rattle.template_machine_meaning.specs.Surroundings.{Programs};
ghost use Rattle.template_machine_operands.specs.Operands.{operands_in};
ghost use Rattle.template_machine_steps.specs.Performs.{Leads, ruled};
ghost use Rattle.template_machine_perform.specs.Performs.{straight, IsOfOperands};

use std::alloc::Global;
use template_compiler_code::{CompareOp, Instruction};
use template_compiler_tree::CompareOpKind;
use template_machine_operands::Operands;
use template_machine_state::State;
use template_machine_steps::{
    Way, build_kwargs, build_list, build_map, build_tuple, compare_and_preserve, discard_top,
    dup_top, get_attr, get_item, invert, is_undefined, jump, jump_if_false, jump_if_false_or_pop,
    jump_if_true_or_pop, load_const, merge_kwargs, negate, operate, slice, swap, unpack_list,
    unpack_lists,
};
use template_values_errors::{Error, ErrorKind, UndefinedBehavior};

/// Behind the instruction, where it was performed.
///
/// # Errors
///
/// That with which it was refused.
#[inline(always)]
pub fn straight(done: Result<(), Error>) -> Result<Way, Error>
    ensures { result ≡ straight done }
{
    match done {
        Ok(()) => Ok(Way::Behind),
        Err(error) => Err(error),
    }
}

fn comparison_of(op: CompareOp) -> CompareOpKind
    ensures { result ≡ comparison_of op }
{
    match op {
        CompareOp::Eq => CompareOpKind::Eq,
        CompareOp::Ne => CompareOpKind::Ne,
        CompareOp::Lt => CompareOpKind::Lt,
        CompareOp::Lte => CompareOpKind::Lte,
        CompareOp::Gt => CompareOpKind::Gt,
        CompareOp::Gte => CompareOpKind::Gte,
        CompareOp::In => CompareOpKind::In,
        CompareOp::NotIn => CompareOpKind::NotIn,
    }
}

// Does what an instruction does that only takes and gives operands, and looks into records alone of what surrounds them.
#[inline(never)]
pub(crate) fn perform_on_operands(
    alloc: Global,
    mode: UndefinedBehavior,
    instruction: &Instruction<'_>,
    state: &State<'_>,
    operands: &mut Operands,
) -> Result<Way, Error>
    requires { IsOfOperands (code_of instruction.now) }
    ensures { (program : Programs) (limit : ℕ) →
        Leads (ruled program limit mode) (code_of instruction.now) (operands_in operands.old) state.now
        result (operands_in operands.new) state.now }
{
    match instruction.operator() {
        Some(op) => straight(operate(alloc, mode, op, operands, state)),
        None => perform_without_operator(alloc, mode, instruction, state, operands),
    }
}

// The same where the instruction has no operator.
fn perform_without_operator(
    alloc: Global,
    mode: UndefinedBehavior,
    instruction: &Instruction<'_>,
    state: &State<'_>,
    operands: &mut Operands,
) -> Result<Way, Error>
    requires operands { IsOfOperands (code_of instruction.now) }
    requires no_operator { None ≡ operator_in (code_of instruction.now) }
    ensures { (program : Programs) (limit : ℕ) →
        Leads (ruled program limit mode) (code_of instruction.now) (operands_in operands.old) state.now
        result (operands_in operands.new) state.now }
{
    match instruction {
        Instruction::LoadConst(value) => straight(load_const(operands, value)),
        Instruction::Swap => straight(swap(operands)),
        Instruction::DupTop => straight(dup_top(operands)),
        Instruction::DiscardTop => straight(discard_top(operands)),
        Instruction::GetAttr(name) => {
            straight(get_attr(alloc, mode, name.as_str(), operands, state))
        }
        Instruction::GetItem => straight(get_item(alloc, mode, operands, state)),
        Instruction::Slice => straight(slice(alloc, mode, operands)),
        Instruction::BuildList(count) => straight(build_list(alloc, *count, operands)),
        Instruction::BuildTuple(count) => straight(build_tuple(alloc, *count, operands)),
        Instruction::BuildMap(count) => straight(build_map(alloc, *count, operands)),
        Instruction::BuildKwargs(count) => straight(build_kwargs(alloc, *count, operands)),
        Instruction::MergeKwargs(count) => {
            straight(merge_kwargs(alloc, mode, *count, operands, state))
        }
        Instruction::UnpackList(count) => straight(unpack_list(alloc, *count, operands)),
        Instruction::UnpackLists(count) => {
            straight(unpack_lists(alloc, *count, operands, state))
        }
        Instruction::Neg => straight(negate(operands)),
        Instruction::Not => straight(invert(mode, operands, state)),
        Instruction::IsUndefined => straight(is_undefined(operands)),
        Instruction::CompareAndPreserve(op) => {
            straight(compare_and_preserve(mode, comparison_of(*op), operands, state))
        }
        Instruction::Jump(to) => Ok(jump(*to)),
        Instruction::JumpIfFalse(to) => jump_if_false(mode, *to, operands, state),
        Instruction::JumpIfFalseOrPop(to) => jump_if_false_or_pop(mode, *to, operands, state),
        Instruction::JumpIfTrueOrPop(to) => jump_if_true_or_pop(mode, *to, operands, state),
        _ => Err(Error::new(ErrorKind::BadStream)),
    }
}
