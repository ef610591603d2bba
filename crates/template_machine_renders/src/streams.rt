//! The run of a stream that was handed in.
ghost use Rattle.std.specs.Prelude.{◌≡◌, ℕ, ◌≤◌, length, None, Some, IfOk};
ghost use Rattle.template_compiler_code.specs.Listing.{code_in};
ghost use Rattle.template_compiler_code.specs.Steps.{values_in};
ghost use Rattle.template_compiler_code_shapes.specs.Checked.{kind_in, stream_in};
ghost use Rattle.template_compiler_code_shapes.specs.declared.StreamKind.{StreamKind};
ghost use Rattle.template_machine_going.specs.Told.{CountsFailures};
ghost use Rattle.template_machine_meaning.specs.Keeps.{KeepsWorld};
ghost use Rattle.template_machine_operands.specs.Operands.{operands_in};
ghost use Rattle.template_machine_state.specs.Changes.{stream_begun};
ghost use Rattle.template_machine_loop.specs.Plans.{PutsBack};
ghost use Rattle.template_machine_loop.specs.Programs.{programs_in, programs_under, roots_of};
ghost use Rattle.template_machine_loop.specs.Runs.{KeyRuns};
ghost use Rattle.template_machine_renders.specs.Handed.{ComesGiving, LeavesAtEnd, begun_run, handed, handing, own_run, stream_run};

use std::alloc::Global;
use template_compiler_code::Instructions;
use template_compiler_code_shapes::Checked;
use template_machine_going::Stop;
use template_machine_loop::{Kept, Program, Templates, run_to_end, run_whole};
use template_machine_operands::Operands;
use template_machine_state::State;
use template_machine_surroundings::Sink;
use template_values_core::Value;
use template_values_errors::{Error, ErrorKind};

/// Runs a stream that is handed in, by a number that no other has had in the state, in a frame of its own, whatever the run has met,
/// with the templates that it extends; and gives the value that its own instructions leave: an expression's leave one, a template's
/// none. Behind it, and behind an error, what was open around it is as it was. What it makes, macros and loops, can be run while it
/// runs alone.
///
/// # Errors
///
/// `InvalidOperation` where there is no room; the fault of its run; and a want of memory, a sink's failure and lost code, as for
/// [`run_template`](crate::run_template).
pub fn run_stream<'env, T: Templates, S: Sink>(
    alloc: Global,
    program: Program<'env, '_, T>,
    number: usize,
    stream: &'env Checked<'env>,
    state: &mut State<'env>,
    left: &mut Option<u64>,
    scratch: &mut String,
    sink: &mut S,
) -> Result<Option<Value>, Stop>
    ensures runs { let templates = program.entry.templates.now in let code = code_in (stream_in stream.now) in
        let roots = handing number code (roots_of program.entry) in
        let s = programs_under (T.standing templates) (T.joins templates) (T.callables templates) roots program.entry.rules in
        ComesGiving (own_run s code (stream_begun number state.old)) (stream_run s number state.old)
        left.old (S.taken sink.old) result state.new left.new (S.taken sink.new) }
    ensures template { IfOk result (λ value. kind_in stream.now ≡ StreamKind.Template → value ≡ None) }
    ensures back { PutsBack state.old state.new }
    ensures keeps { KeepsWorld state.old state.new }
    ensures frames { state.new.frames ≡ state.old.frames }
    ensures failures { CountsFailures result (S.failures sink.old) (S.failures sink.new) }
{
    if !state.has_room(program.rules.limit, 1) {
        return Err(Stop::Fault(Error::new(ErrorKind::InvalidOperation)));
    }
    let caller = state.enter_stream(alloc, number)?;
    let program = Program {
        templates: program.templates,
        root: program.root,
        kept: Some(Kept {
            number,
            code: stream.instructions(),
        }),
        rules: program.rules,
    };
    let ran = run_begun(alloc, program, stream, state, left, scratch, sink);
    // Whatever the run's end.
    state.leave_block(caller);
    ran
}

// Runs the stream that was handed in, and gives the value that it leaves.
fn run_begun<'env, T: Templates, S: Sink>(
    alloc: Global,
    program: Program<'env, '_, T>,
    stream: &'env Checked<'env>,
    state: &mut State<'env>,
    left: &mut Option<u64>,
    scratch: &mut String,
    sink: &mut S,
) -> Result<Option<Value>, Stop>
    requires { state.old.floor ≤ length state.old.frames }
    ensures runs { let s = programs_in T.standing T.joins T.callables program.entry in let code = code_in (stream_in stream.now) in
        (number : ℕ) → (roots_of program.entry).kept ≡ Some (number, code) →
        ComesGiving (own_run s code state.old) (begun_run s number state.old)
        left.old (S.taken sink.old) result state.new left.new (S.taken sink.new) }
    ensures template { IfOk result (λ value. kind_in stream.now ≡ StreamKind.Template → value ≡ None) }
    ensures keeps { KeepsWorld state.old state.new }
    ensures failures { CountsFailures result (S.failures sink.old) (S.failures sink.new) }
{
    let code = stream.instructions();
    let mut operands = run_followed(alloc, program, code, state, left, scratch, sink)?;
    match operands.take_uppermost() {
        Ok(value) => Ok(Some(value)),
        Err(_none) => Ok(None),
    }
}

// Runs the code of the stream that was handed in, and then, where it extends a template, that one's with those that it extends; and
// tells the operands that its own code leaves.
fn run_followed<'env, T: Templates, S: Sink>(
    alloc: Global,
    program: Program<'env, '_, T>,
    code: &'env Instructions<'env>,
    state: &mut State<'env>,
    left: &mut Option<u64>,
    scratch: &mut String,
    sink: &mut S,
) -> Result<Operands, Stop>
    requires { state.old.floor ≤ length state.old.frames }
    ensures runs { (number : ℕ) → (roots_of program.entry).kept ≡ Some (number, code_in code.now) →
        KeyRuns (programs_in T.standing T.joins T.callables program.entry) (handed number)
        state.old left.old (S.taken sink.old) result state.new left.new (S.taken sink.new) }
    ensures leaves { let s = programs_in T.standing T.joins T.callables program.entry in
        IfOk result (λ operands. LeavesAtEnd (own_run s (code_in code.now) state.old) (values_in (operands_in operands))) }
    ensures keeps { KeepsWorld state.old state.new }
    ensures failures { CountsFailures result (S.failures sink.old) (S.failures sink.new) }
{
    let operands = run_to_end(alloc, program, code, state, left, scratch, sink)?;
    let Some(name) = state.parent() else {
        return Ok(operands);
    };
    state.restart(name);
    let Some(parent) = program.templates.get(name) else {
        return Err(Stop::Fault(Error::new(ErrorKind::TemplateNotFound)));
    };
    match run_whole(alloc, program, parent.code, state, left, scratch, sink) {
        Ok(()) => Ok(operands),
        Err(stop) => Err(stop),
    }
}
