//! Calls of blocks, and of the bodies behind theirs.
ghost use Rattle.std.specs.Prelude.{◌≡◌, ◌+◌, ◌||◌, false, true, is_some};
ghost use Rattle.template_compiler_process.specs.Process.{done, value};
ghost use Rattle.template_machine_tables.specs.Streams.{home_of};
ghost use Rattle.template_machine_meaning.specs.Blocks.{block_called, block_plan, block_within, super_plan, text_plan};
ghost use Rattle.template_machine_meaning.specs.Captures.{is_dropping};
ghost use Rattle.template_machine_meaning.specs.Keeps.{KeepsWorld};
ghost use Rattle.template_machine_meaning.specs.Plans.{room_for};
ghost use Rattle.template_machine_meaning.specs.World.{has_room};
ghost use Rattle.template_machine_going.specs.Told.{CountsFailures};
ghost use Rattle.template_machine_loop.specs.Found.{StandsThere, name_in};
ghost use Rattle.template_machine_loop.specs.Plans.{DoesPlan, PutsBack};
ghost use Rattle.template_machine_loop.specs.Programs.{programs_in, roots_of};

use crate::found::{Found, body_behind, body_to_run};
use crate::templates::{Program, Templates};
use crate::told::told_by;
use crate::whole::run_whole;
use std::alloc::Global;
use template_machine_going::Stop;
use template_machine_state::State;
use template_machine_surroundings::Sink;
use template_values_core::Value;
use template_values_errors::{Error, ErrorKind};

/// Runs the body of a block that the block's calls run, in a frame of its own, whatever the run has met. Behind it, and behind an
/// error, what was open around it is as it was.
///
/// # Errors
///
/// `UnknownBlock` where no template has a block of this name; `InvalidOperation` where the only body says that another has to
/// be given, or there is no room; the fault of its run; and a want of memory, a sink's failure and lost code, as for
/// [`run_to_end`](crate::run_to_end).
#[cycle(running)]
pub fn run_block<'env, T: Templates, S: Sink>(
    alloc: Global,
    program: Program<'env, '_, T>,
    name: &str,
    state: &mut State<'env>,
    left: &mut Option<u64>,
    scratch: &mut String,
    sink: &mut S,
) -> Result<(), Stop>
    ensures plan { let s = programs_in T.standing T.joins T.callables program.entry in
        DoesPlan (λ u. done) s (block_plan s.around state.old name.now)
        state.old left.old (S.taken sink.old) result state.new left.new (S.taken sink.new) }
    ensures back { PutsBack state.old state.new }
    ensures keeps { KeepsWorld state.old state.new }
    ensures frames { state.new.frames ≡ state.old.frames }
    ensures failures { CountsFailures result (S.failures sink.old) (S.failures sink.new) }
{
    let found = body_to_run(program, name, state)?;
    run_body(alloc, program, found, state, left, scratch, sink)
}

/// Runs the body of a block as [`run_block`] does; where the run extends a template, or what is written is dropped, the block
/// isn't even looked for.
///
/// # Errors
///
/// Those of [`run_block`].
#[cycle(running)]
pub(crate) fn call_block<'env, T: Templates, S: Sink>(
    alloc: Global,
    program: Program<'env, '_, T>,
    name: &str,
    state: &mut State<'env>,
    left: &mut Option<u64>,
    scratch: &mut String,
    sink: &mut S,
) -> Result<(), Stop>
    ensures plan { let s = programs_in T.standing T.joins T.callables program.entry in
        DoesPlan (λ u. done) s (block_called s.around state.old name.now)
        state.old left.old (S.taken sink.old) result state.new left.new (S.taken sink.new) }
    ensures keeps { KeepsWorld state.old state.new }
    ensures failures { CountsFailures result (S.failures sink.old) (S.failures sink.new) }
{
    if is_passed_over(state) {
        return Ok(());
    }
    run_block(alloc, program, name, state, left, scratch, sink)
}

// Whether a block's call does nothing: the run extends a template, or what is written is dropped.
fn is_passed_over(state: &State<'_>) -> bool
    ensures { result ≡ (is_some state.now.parent || is_dropping state.now.captures) }
{
    state.parent().is_some() || state.is_dropping()
}

// Runs a body, where there is room for it.
#[cycle(running)]
fn run_body<'env, T: Templates, S: Sink>(
    alloc: Global,
    program: Program<'env, '_, T>,
    found: Found<'env>,
    state: &mut State<'env>,
    left: &mut Option<u64>,
    scratch: &mut String,
    sink: &mut S,
) -> Result<(), Stop>
    requires { StandsThere (T.standing program.templates.now) (roots_of program) found }
    ensures plan { let s = programs_in T.standing T.joins T.callables program.entry in
        let within = block_within state.old (name_in found.entry) (home_of found.entry.home) in
        DoesPlan (λ u. done) s (room_for s.around.limit 1 state.old within)
        state.old left.old (S.taken sink.old) result state.new left.new (S.taken sink.new) }
    ensures back { PutsBack state.old state.new }
    ensures keeps { KeepsWorld state.old state.new }
    ensures frames { state.new.frames ≡ state.old.frames }
    ensures failures { CountsFailures result (S.failures sink.old) (S.failures sink.new) }
{
    if !state.has_room(program.rules.limit, 1) {
        return Err(Stop::Fault(Error::new(ErrorKind::InvalidOperation)));
    }
    let caller = state.enter_block(alloc, found.block.name.as_str(), found.home)?;
    let ran = run_whole(
        alloc,
        program,
        &found.block.instructions,
        state,
        left,
        scratch,
        sink,
    );
    // Whatever the run's end.
    state.leave_block(caller);
    ran
}

/// Runs the body behind the one of the block that runs, and writes its text where the run stands.
///
/// # Errors
///
/// `InvalidOperation` where no block runs, there is no such body, or no room for it; the fault of its run, behind an `EvalBlock`,
/// as is lost code; and a want of memory and a sink's failure, as for [`run_to_end`](crate::run_to_end).
#[cycle(running)]
pub(crate) fn print_super<'env, T: Templates, S: Sink>(
    alloc: Global,
    program: Program<'env, '_, T>,
    state: &mut State<'env>,
    left: &mut Option<u64>,
    scratch: &mut String,
    sink: &mut S,
) -> Result<(), Stop>
    ensures plan { let s = programs_in T.standing T.joins T.callables program.entry in
        DoesPlan (λ u. done) s (super_plan s.around state.old false)
        state.old left.old (S.taken sink.old) result state.new left.new (S.taken sink.new) }
    ensures keeps { KeepsWorld state.old state.new }
    ensures failures { CountsFailures result (S.failures sink.old) (S.failures sink.new) }
{
    let Some(found) = body_behind(program, state) else {
        return Err(Stop::Fault(Error::new(ErrorKind::InvalidOperation)));
    };
    if !state.has_room(program.rules.limit, 1) {
        return Err(Stop::Fault(Error::new(ErrorKind::InvalidOperation)));
    }
    let name = found.block.name.as_str();
    let caller = state.enter_super(alloc, name, found.place, found.home, false)?;
    let ran = run_whole(
        alloc,
        program,
        &found.block.instructions,
        state,
        left,
        scratch,
        sink,
    );
    state.leave_super(caller, name, found.place);
    match ran {
        Ok(()) => Ok(()),
        Err(stop) => Err(stop.wrapped(alloc, ErrorKind::EvalBlock)),
    }
}

/// Runs the body behind the one of the block that runs, and gives its text.
///
/// # Errors
///
/// Those of [`print_super`].
#[cycle(running)]
pub(crate) fn call_super<'env, T: Templates, S: Sink>(
    alloc: Global,
    program: Program<'env, '_, T>,
    state: &mut State<'env>,
    left: &mut Option<u64>,
    scratch: &mut String,
    sink: &mut S,
) -> Result<Value, Stop>
    ensures plan { let s = programs_in T.standing T.joins T.callables program.entry in
        DoesPlan value s (super_plan s.around state.old true)
        state.old left.old (S.taken sink.old) result state.new left.new (S.taken sink.new) }
    ensures keeps { KeepsWorld state.old state.new }
    ensures failures { CountsFailures result (S.failures sink.old) (S.failures sink.new) }
{
    let Some(found) = body_behind(program, state) else {
        return Err(Stop::Fault(Error::new(ErrorKind::InvalidOperation)));
    };
    if !state.has_room(program.rules.limit, 1) {
        return Err(Stop::Fault(Error::new(ErrorKind::InvalidOperation)));
    }
    let name = found.block.name.as_str();
    let caller = state.enter_super(alloc, name, found.place, found.home, true)?;
    let ran = run_whole(
        alloc,
        program,
        &found.block.instructions,
        state,
        left,
        scratch,
        sink,
    );
    match ran {
        Ok(()) => told_by(state.leave_named_super(alloc, caller, name, found.place)),
        Err(stop) => {
            state.leave_super(caller, name, found.place);
            Err(stop.wrapped(alloc, ErrorKind::EvalBlock))
        }
    }
}

/// Runs the body of a block as [`run_block`] does, where so many calls are pending, which count as levels, and gives its text.
///
/// # Errors
///
/// Those of [`run_block`].
#[cycle(running)]
pub(crate) fn run_block_text<'env, T: Templates, S: Sink>(
    alloc: Global,
    program: Program<'env, '_, T>,
    name: &str,
    pending: usize,
    state: &mut State<'env>,
    left: &mut Option<u64>,
    scratch: &mut String,
    sink: &mut S,
) -> Result<Value, Stop>
    ensures plan { let s = programs_in T.standing T.joins T.callables program.entry in
        DoesPlan value s (text_plan s.around pending state.old name.now)
        state.old left.old (S.taken sink.old) result state.new left.new (S.taken sink.new) }
    ensures keeps { KeepsWorld state.old state.new }
    ensures frames { state.new.frames ≡ state.old.frames }
    ensures failures { CountsFailures result (S.failures sink.old) (S.failures sink.new) }
{
    let found = body_to_run(program, name, state)?;
    if !has_room_beside(state, program.rules.limit, 1, pending) {
        return Err(Stop::Fault(Error::new(ErrorKind::InvalidOperation)));
    }
    let name = found.block.name.as_str();
    let caller = state.enter_block_text(alloc, name, found.home, pending)?;
    let ran = run_whole(
        alloc,
        program,
        &found.block.instructions,
        state,
        left,
        scratch,
        sink,
    );
    match ran {
        Ok(()) => told_by(state.leave_block_text(alloc, caller)),
        Err(stop) => {
            state.leave_block(caller);
            Err(stop)
        }
    }
}

/// Whether so many levels may be opened, and as many as calls are pending.
pub(crate) fn has_room_beside(
    state: &State<'_>,
    limit: usize,
    levels: usize,
    pending: usize,
) -> bool
    ensures { result ≡ has_room limit (levels + pending) state.now }
{
    match levels.checked_add(pending) {
        Some(levels) => state.has_room(limit, levels),
        None => false,
    }
}
