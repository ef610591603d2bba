//! The run of a template's code, and of an expression's.
ghost use Rattle.std.specs.Prelude.{◌≤◌, length, Option, None};
ghost use Rattle.template_compiler_code.specs.Listing.{code_in};
ghost use Rattle.template_machine_going.specs.Told.{CountsFailures};
ghost use Rattle.template_machine_meaning.specs.Keeps.{KeepsWorld};
ghost use Rattle.template_machine_meaning.specs.Meaning.{top};
ghost use Rattle.template_machine_loop.specs.Programs.{programs_in};
ghost use Rattle.template_machine_loop.specs.Runs.{Evaluates, KeyRuns};

use std::alloc::Global;
use template_compiler_code::Instructions;
use template_machine_going::Stop;
use template_machine_loop::{Program, Templates, run_to_end, run_whole};
use template_machine_state::State;
use template_machine_surroundings::Sink;
use template_values_core::Value;
use template_values_errors::{Error, ErrorKind};

/// Runs the code of the template that is rendered in a state, with the templates that it extends and those that it includes among
/// those that stand, in the time that [`run_to_end`] tells. Where it calls what is a user's own, that answers. A fuel, if one is
/// set, is charged before each instruction. Texts of printed values may be made in `scratch`, which loses what it holds and keeps
/// its room.
///
/// # Errors
///
/// Those of [`run_to_end`]: the fault that the run ends with, behind a `BadInclude` for each include and an `EvalBlock` for each
/// `super()` that it happened in, and `BadStream`, also where no template is rendered; the wants `OutOfMemory` and `WriteFailure`.
pub fn run_template<'env, T: Templates, S: Sink>(
    alloc: Global,
    program: Program<'env, '_, T>,
    state: &mut State<'env>,
    left: &mut Option<u64>,
    scratch: &mut String,
    sink: &mut S,
) -> Result<(), Stop>
    requires { state.old.floor ≤ length state.old.frames }
    ensures runs { KeyRuns (programs_in T.standing T.joins T.callables program.entry) top
        state.old left.old (S.taken sink.old) result state.new left.new (S.taken sink.new) }
    ensures failures { CountsFailures result (S.failures sink.old) (S.failures sink.new) }
{
    match program.root {
        Some(root) => run_whole(alloc, program, root.code, state, left, scratch, sink),
        None => Err(Stop::Fault(Error::new(ErrorKind::BadStream))),
    }
}

/// Runs an expression's code in a state, as [`run_template`] runs a template's, and gives the uppermost value that is left at
/// its end.
///
/// # Errors
///
/// Those of [`run_to_end`]; `BadStream` also where no value is left, which no verified code of an expression
/// meets.
pub fn run_expression<'env, T: Templates, S: Sink>(
    alloc: Global,
    program: Program<'env, '_, T>,
    code: &'env Instructions<'_>,
    state: &mut State<'env>,
    left: &mut Option<u64>,
    scratch: &mut String,
    sink: &mut S,
) -> Result<Value, Stop>
    requires { state.old.floor ≤ length state.old.frames }
    ensures evaluates { Evaluates (programs_in T.standing T.joins T.callables program.entry) (code_in code.now)
        state.old left.old (S.taken sink.old) result state.new left.new (S.taken sink.new) }
    ensures keeps { KeepsWorld state.old state.new }
    ensures failures { CountsFailures result (S.failures sink.old) (S.failures sink.new) }
{
    let mut operands = run_to_end(alloc, program, code, state, left, scratch, sink)?;
    Ok(operands.take_uppermost()?)
}
