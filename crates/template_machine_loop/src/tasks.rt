//! What instructions want done.
ghost use Rattle.std.specs.Prelude.{◌≡◌, if◌then◌else◌};
ghost use Rattle.template_compiler_code.specs.View.{code_of};
ghost use Rattle.template_compiler_walk.specs.Statements.{is_super_name};
ghost use Rattle.template_machine_loop.specs.Programs.{task_of};
ghost use Rattle.template_machine_loop.specs.declared.tasks.Task.TheVariants.{Calls, Enters};

use template_compiler_code::Instruction;

/// What an instruction wants done.
#[derive(Clone, Copy)]
pub(crate) enum Task {
    /// It is performed.
    Performs,
    /// It calls.
    Calls,
    /// It may enter a run within, or it says which template is extended.
    Enters,
    /// It opens or closes a loop, or makes a macro.
    Scopes,
    /// The run is over.
    Ends,
}

/// The task of an instruction.
#[inline(always)]
pub(crate) fn task_of(instruction: &Instruction<'_>) -> Task
    ensures { result ≡ task_of (code_of instruction.now) }
{
    match instruction {
        Instruction::Include(_)
        | Instruction::CallBlock(_)
        | Instruction::FastSuper
        | Instruction::FastRecurse
        | Instruction::LoadBlocks => Task::Enters,
        Instruction::PushLoop(_) | Instruction::PopLoopFrame | Instruction::BuildMacro(_, _, _) =>
            Task::Scopes,
        Instruction::CallFunction(name, _) => named_task(name.as_str()),
        Instruction::ApplyFilter(_, _, _)
        | Instruction::PerformTest(_, _, _)
        | Instruction::CallMethod(_, _)
        | Instruction::CallObject(_) => Task::Calls,
        Instruction::Return => Task::Ends,
        _ => Task::Performs,
    }
}

// The task of a call by a name.
#[inline(always)]
fn named_task(name: &str) -> Task
    ensures { result ≡ (if is_super_name name.now then Enters else Calls) }
{
    if name == "super" {
        Task::Enters
    } else {
        Task::Calls
    }
}
