//! The run of code with the templates that are extended.
ghost use Rattle.std.specs.Prelude.{◌≡◌, ◌≤◌, length, Some};
ghost use Rattle.template_compiler_code.specs.Listing.{code_in};
ghost use Rattle.template_machine_going.specs.Told.{CountsFailures};
ghost use Rattle.template_machine_meaning.specs.Keeps.{KeepsWorld};
ghost use Rattle.template_machine_meaning.specs.Keys.{Stream, whole_of};
ghost use Rattle.template_machine_loop.specs.Programs.{code_at, programs_in, roots_of};
ghost use Rattle.template_machine_loop.specs.Runs.{KeyRuns};

use crate::running::run_to_end;
use crate::templates::{Program, Templates};
use std::alloc::Global;
use template_compiler_code::Instructions;
use template_machine_going::Stop;
use template_machine_state::State;
use template_machine_surroundings::Sink;
use template_values_errors::{Error, ErrorKind};

/// Runs code in a state as [`run_to_end`] does, and then, where it extends a template, that one's code in its place, in the same
/// frames; and so on.
///
/// # Errors
///
/// Those of [`run_to_end`], of any of these; and `TemplateNotFound` where an extended template doesn't stand.
#[cycle(running)]
pub fn run_whole<'env, T: Templates, S: Sink>(
    alloc: Global,
    program: Program<'env, '_, T>,
    code: &'env Instructions<'env>,
    state: &mut State<'env>,
    left: &mut Option<u64>,
    scratch: &mut String,
    sink: &mut S,
) -> Result<(), Stop>
    requires { state.old.floor ≤ length state.old.frames }
    ensures runs { (here : Stream) →
        code_at (T.standing program.entry.templates.now) (roots_of program.entry) here ≡ Some (code_in code.now) →
        KeyRuns (programs_in T.standing T.joins T.callables program.entry) (whole_of here)
        state.old left.old (S.taken sink.old) result state.new left.new (S.taken sink.new) }
    ensures keeps { KeepsWorld state.old state.new }
    ensures failures { CountsFailures result (S.failures sink.old) (S.failures sink.new) }
{
    let _first = run_to_end(alloc, program, code, state, left, scratch, sink)?;
    for _ in 0..u64::MAX {
        let Some(name) = state.parent() else {
            return Ok(());
        };
        state.restart(name);
        let Some(parent) = program.templates.get(name) else {
            return Err(Stop::Fault(Error::new(ErrorKind::TemplateNotFound)));
        };
        let _next = run_to_end(alloc, program, parent.code, state, left, scratch, sink)?;
    }
    Err(Stop::Want(Error::new(ErrorKind::OutOfMemory)))
}
