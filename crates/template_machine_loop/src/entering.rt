//! The instructions that may enter a run within, or that say which template is extended.
ghost use Rattle.std.specs.Prelude.{◌≡◌, ◌==◌, length};
ghost use Rattle.template_compiler_code.specs.View.{code_of};
ghost use Rattle.template_machine_going.specs.Told.{CountsFailures};
ghost use Rattle.template_machine_operands.specs.Operands.{operands_in};
ghost use Rattle.template_machine_loop.specs.Entering.{Does};
ghost use Rattle.template_machine_loop.specs.Programs.{programs_in, task_of};
ghost use Rattle.template_machine_loop.specs.declared.tasks.Task.TheVariants.{Enters};

use crate::blocks::{call_block, call_super, print_super};
use crate::extending::extend;
use crate::includes::include;
use crate::rounds::print_rounds;
use crate::templates::{Program, Templates};
use crate::told::told_by;
use std::alloc::Global;
use template_compiler_code::Instruction;
use template_machine_going::Stop;
use template_machine_operands::Operands;
use template_machine_state::State;
use template_machine_surroundings::Sink;
use template_values_core::Value;
use template_values_errors::{Error, ErrorKind};

/// Does what an instruction does that may enter a run within, once it is paid. It stands alone, so that others have nothing of it.
///
/// # Errors
///
/// Those of `include`, `call_block`, `print_super`, `print_rounds`, `call_super` and `extend`; `InvalidOperation` where `super` is called
/// with arguments; and `BadStream` where operands are missing, which no verified code meets.
#[cycle(running)]
#[cold]
#[inline(never)]
pub(crate) fn enter<'env, T: Templates, S: Sink>(
    alloc: Global,
    program: Program<'env, '_, T>,
    instruction: &'env Instruction<'_>,
    operands: &mut Operands,
    state: &mut State<'env>,
    left: &mut Option<u64>,
    scratch: &mut String,
    sink: &mut S,
) -> Result<(), Stop>
    requires { task_of (code_of instruction.now) ≡ Enters }
    ensures does { Does (programs_in T.standing T.joins T.callables program.entry) (code_of instruction.now)
        (operands_in operands.old) state.old left.old (S.taken sink.old) result
        (operands_in operands.new) state.new left.new (S.taken sink.new) }
    ensures failures { CountsFailures result (S.failures sink.old) (S.failures sink.new) }
{
    match instruction {
        Instruction::Include(ignore_missing) => {
            let value = operands.take()?;
            include(
                alloc,
                program,
                *ignore_missing,
                value,
                state,
                left,
                scratch,
                sink,
            )
        }
        Instruction::CallBlock(name) => call_block(
            alloc,
            program,
            name.as_str(),
            state,
            left,
            scratch,
            sink,
        ),
        Instruction::FastSuper => print_super(alloc, program, state, left, scratch, sink),
        Instruction::FastRecurse => {
            let value = operands.take()?;
            print_rounds(alloc, program, value, state, left, scratch, sink)
        }
        Instruction::LoadBlocks => {
            let value = operands.take()?;
            extend(alloc, program, &value, state)
        }
        Instruction::CallFunction(_, count) => {
            let args = operands.take_handed(widened(*count))?;
            if !is_none(args.as_slice()) {
                return Err(Stop::Fault(Error::new(ErrorKind::InvalidOperation)));
            }
            let text = call_super(alloc, program, state, left, scratch, sink)?;
            told_by(operands.push(text))
        }
        _ => Err(Stop::Fault(Error::new(ErrorKind::BadStream))),
    }
}

// Whether there are no arguments.
fn is_none(args: &[Value]) -> bool
    ensures { result ≡ (length args.now == 0) }
{
    args.is_empty()
}

// The count of an instruction, as it is taken.
fn widened(count: Option<u16>) -> Option<usize>
    ensures { result ≡ count }
{
    match count {
        Some(count) => Some(usize::from(count)),
        None => None,
    }
}
