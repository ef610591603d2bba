//! The names that instructions refer to.
ghost use Rattle.std.specs.Prelude.{◌≡◌, IfOk, IfErr, OnOk, bytes_eq, map, option_map, slice_get};
ghost use Rattle.std.specs.List.{list_any};
ghost use Rattle.template_values_errors.specs.Memory.{NoMemory};
ghost use Rattle.template_compiler_code.specs.Listing.{code_in};
ghost use Rattle.template_compiler_code.specs.View.{code_of};
ghost use Rattle.template_compiler_code.specs.References.{name_at, name_referred, names_before, names_with, is_jump_to, is_return, opens_body};

use crate::{Instruction, Instructions, LOOP_FLAG_WITH_LOOP_VAR};
use std::alloc::Global;
use template_values_errors::Error;

/// The names that the instructions at a place and before it refer to, the latest first, and each once: those that are
/// looked up, stored or called, and `loop` where a loop with its variable begins. Within the body of a macro those of
/// that body alone, as far as its opening jump, and elsewhere those that stand in no macro's body. A place behind the last
/// instruction counts as the last.
///
/// Takes as many comparisons of names as there are instructions, for each name that is found.
///
/// # Errors
///
/// [`ErrorKind::OutOfMemory`](template_values_errors::ErrorKind::OutOfMemory).
pub fn get_referenced_names<'a>(
    alloc: Global,
    code: &'a Instructions<'_>,
    index: u32,
) -> Result<Vec<&'a str>, Error>
    ensures names { IfOk result (λ names. map (λ n. n.now) names.items ≡ names_before (code_in code.now) index) }
    ensures refused { IfErr result NoMemory }
{
    let mut names = Vec::new(alloc);
    let count = code.len();
    if count == 0 {
        return Ok(names);
    }
    let last = index.min(count as u32 - 1);
    if is_opening(code, last) {
        return Ok(names);
    }
    add_name_at(&mut names, code, last)?;
    let mut left = last;
    let mut body = None;
    while left > 0 {
        left -= 1;
        match body {
            Some(end) => {
                if jumps_to(code, left, end) {
                    body = None;
                }
            }
            None => {
                if returns(code, left) {
                    body = Some(left + 1);
                } else if is_opening(code, left) {
                    return Ok(names);
                } else {
                    add_name_at(&mut names, code, left)?;
                }
            }
        }
    }
    Ok(names)
}

// Whether the body of a macro ends at a place.
fn returns(code: &Instructions<'_>, place: u32) -> bool
    ensures { result ≡ is_return (slice_get (code_in code.now) place) }
{
    match code.get(place) {
        Some(Instruction::Return) => true,
        _ => false,
    }
}

// Whether a jump at a place leads to another place.
fn jumps_to(code: &Instructions<'_>, place: u32, end: u32) -> bool
    ensures { result ≡ is_jump_to end (slice_get (code_in code.now) place) }
{
    match code.get(place) {
        Some(Instruction::Jump(to)) => *to == end,
        _ => false,
    }
}

// Whether the jump before the body of a macro stands at a place.
fn is_opening(code: &Instructions<'_>, place: u32) -> bool
    ensures { result ≡ opens_body (code_in code.now) (slice_get (code_in code.now) place) }
{
    match code.get(place) {
        Some(Instruction::Jump(to)) => returns(code, to.saturating_sub(1)),
        _ => false,
    }
}

// The name that the instruction at a place refers to stands behind the others, unless it is among them.
fn add_name_at<'a>(
    names: &mut Vec<&'a str>,
    code: &'a Instructions<'_>,
    place: u32,
) -> Result<(), Error>
    ensures added { OnOk result (map (λ n. n.now) names.new.items
        ≡ names_with (map (λ n. n.now) names.old.items) (name_at (code_in code.now) place)) }
    ensures refused { IfErr result NoMemory }
{
    let Some(instruction) = code.get(place) else {
        return Ok(());
    };
    add_name(names, instruction)?;
    Ok(())
}

// The name that an instruction refers to stands behind the others, unless it is among them.
fn add_name<'a>(names: &mut Vec<&'a str>, instruction: &'a Instruction<'_>) -> Result<(), Error>
    ensures added { OnOk result (map (λ n. n.now) names.new.items
        ≡ names_with (map (λ n. n.now) names.old.items) (name_referred (code_of instruction.now))) }
    ensures refused { IfErr result NoMemory }
{
    let Some(name) = referenced_name(instruction) else {
        return Ok(());
    };
    if is_among(names, name) {
        return Ok(());
    }
    names.push(name)?;
    Ok(())
}

// The name that an instruction refers to, where it does to one.
fn referenced_name<'a>(instruction: &'a Instruction<'_>) -> Option<&'a str>
    ensures { option_map (λ n. n.now) result ≡ name_referred (code_of instruction.now) }
{
    match instruction {
        Instruction::Lookup(name) => Some(name.as_str()),
        Instruction::StoreLocal(name) => Some(name.as_str()),
        Instruction::CallFunction(name, _) => Some(name.as_str()),
        Instruction::PushLoop(flags) => {
            if *flags & LOOP_FLAG_WITH_LOOP_VAR == 1 {
                Some("loop")
            } else {
                None
            }
        }
        _ => None,
    }
}

// Whether a name is among others.
fn is_among(names: &[&str], name: &str) -> bool
    ensures { result ≡ list_any (λ other. bytes_eq other.now name.now) names.now }
{
    names.iter().any(|other| *other == name)
}
