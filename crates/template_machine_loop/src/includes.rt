//! Includes.
ghost use Rattle.std.specs.Prelude.{◌≡◌, Ok, Err, Some, IfOk, IfErr, IfSome, option_map};
ghost use Rattle.template_compiler_process.specs.Process.{done};
ghost use Rattle.template_machine_meaning.specs.Includes.{first_standing, include_levels, include_plan, include_within};
ghost use Rattle.template_machine_meaning.specs.Keeps.{KeepsWorld};
ghost use Rattle.template_machine_meaning.specs.Plans.{room_for};
ghost use Rattle.template_machine_meaning.specs.Records.{known_of};
ghost use Rattle.template_machine_going.specs.Told.{CountsFailures, FaultsSo};
ghost use Rattle.template_machine_loop.specs.Found.{FindsTemplateOrNone, IsRefused, found_of};
ghost use Rattle.template_machine_loop.specs.Plans.{DoesPlan};
ghost use Rattle.template_machine_loop.specs.Programs.{programs_in, standing_of};

use crate::templates::{Compiled, Program, Templates};
use crate::whole::run_whole;
use std::alloc::Global;
use template_machine_going::Stop;
use template_machine_operations::choices_in;
use template_machine_state::State;
use template_machine_surroundings::Sink;
use template_values_core::Value;
use template_values_errors::{Error, ErrorKind};
use template_values_items::Items;

// So many levels deeper an included template runs.
const INCLUDE_LEVELS: usize = 10;

/// Runs the first of the templates that a value names that stands, in the frames of the run, with blocks of its own.
///
/// # Errors
///
/// `InvalidOperation` at a value that names no templates, at a choice that is reached and is no text, and where there is no room;
/// `TemplateNotFound` where no choice stands, of those that there are, unless missing ones are ignored; the fault of a name's join;
/// that of its run, behind a `BadInclude`, as is lost code; and a want of memory and a sink's failure, as for
/// [`run_to_end`](crate::run_to_end).
#[cycle(running)]
pub(crate) fn include<'env, T: Templates, S: Sink>(
    alloc: Global,
    program: Program<'env, '_, T>,
    ignore_missing: bool,
    value: Value,
    state: &mut State<'env>,
    left: &mut Option<u64>,
    scratch: &mut String,
    sink: &mut S,
) -> Result<(), Stop>
    ensures plan { let s = programs_in T.standing T.joins T.callables program.entry in
        DoesPlan (λ u. done) s (include_plan (known_of state.old) s.around state.old ignore_missing value)
        state.old left.old (S.taken sink.old) result state.new left.new (S.taken sink.new) }
    ensures keeps { KeepsWorld state.old state.new }
    ensures failures { CountsFailures result (S.failures sink.old) (S.failures sink.new) }
{
    let choice = chosen(alloc, program, ignore_missing, value, state)?;
    match choice {
        Some(found) => run_included(alloc, program, found, state, left, scratch, sink),
        None => Ok(()),
    }
}

// Runs an included template, where there is room for it.
#[cycle(running)]
fn run_included<'env, T: Templates, S: Sink>(
    alloc: Global,
    program: Program<'env, '_, T>,
    found: Compiled<'env>,
    state: &mut State<'env>,
    left: &mut Option<u64>,
    scratch: &mut String,
    sink: &mut S,
) -> Result<(), Stop>
    requires { T.standing program.templates.now found.name.now ≡ Some (standing_of found) }
    ensures plan { let s = programs_in T.standing T.joins T.callables program.entry in
        let within = include_within state.old (found_of (standing_of found.entry)) in
        DoesPlan (λ u. done) s (room_for s.around.limit include_levels state.old within)
        state.old left.old (S.taken sink.old) result state.new left.new (S.taken sink.new) }
    ensures keeps { KeepsWorld state.old state.new }
    ensures failures { CountsFailures result (S.failures sink.old) (S.failures sink.new) }
{
    if !state.has_room(program.rules.limit, INCLUDE_LEVELS) {
        return Err(Stop::Fault(Error::new(ErrorKind::InvalidOperation)));
    }
    let caller = state.enter_include(alloc, found.name, found.escape, found.blocks)?;
    let ran = run_whole(alloc, program, found.code, state, left, scratch, sink);
    state.leave_include(caller);
    match ran {
        Ok(()) => Ok(()),
        Err(stop) => Err(stop.wrapped(alloc, ErrorKind::BadInclude)),
    }
}

// The first of the templates that a value names that stands; none where nothing is to be done.
//
// # Errors
//
// As `include` has them before it runs a template.
fn chosen<'env, T: Templates>(
    alloc: Global,
    program: Program<'env, '_, T>,
    ignore_missing: bool,
    value: Value,
    state: &State<'env>,
) -> Result<Option<Compiled<'env>>, Stop>
    ensures found { let s = programs_in T.standing T.joins T.callables program.entry in
        IfOk result (λ found.
        FindsTemplateOrNone s (T.standing program.entry.templates.now) state.now ignore_missing value (option_map standing_of found)) }
    ensures refused { let s = programs_in T.standing T.joins T.callables program.entry in
        IfErr result (FaultsSo (IsRefused s (include_plan (known_of state.now) s.around state.now ignore_missing value) state.now)) }
{
    let choices = choices_in(alloc, value, state)?;
    let first = first_standing(program, state.here_name(program.rules.name), &choices)?;
    if let Some(found) = first {
        return Ok(Some(found));
    }
    if ignore_missing {
        return Ok(None);
    }
    if choices.is_empty() {
        return Ok(None);
    }
    Err(Stop::Fault(Error::new(ErrorKind::TemplateNotFound)))
}

// The first of the choices that stands; none where no choice does.
//
// # Errors
//
// `InvalidOperation` at a choice that is no text; the fault of a name's join; and `OutOfMemory`.
fn first_standing<'env, T: Templates>(
    program: Program<'env, '_, T>,
    here: &str,
    choices: &Items,
) -> Result<Option<Compiled<'env>>, Stop>
    ensures found { let s = programs_in T.standing T.joins T.callables program.entry in
        IfOk result (λ found. first_standing s.around here.now choices.now ≡ Ok (option_map (λ c. found_of (standing_of c)) found)) }
    ensures stands { IfOk result (λ found. IfSome found (λ c. T.standing program.entry.templates.now c.name.now ≡ Some (standing_of c))) }
    ensures refused { let s = programs_in T.standing T.joins T.callables program.entry in
        IfErr result (FaultsSo (λ kinds. first_standing s.around here.now choices.now ≡ Err kinds)) }
{
    for place in 0..choices.len() {
        let Some(choice) = choices.get(place) else {
            return Ok(None);
        };
        let Some(name) = choice.as_str() else {
            return Err(Stop::Fault(Error::new(ErrorKind::InvalidOperation)));
        };
        let joined = program.templates.join(name, here)?;
        let meant = joined.as_str();
        if let Some(found) = program.templates.get(meant) {
            return Ok(Some(found));
        }
    }
    Ok(None)
}
