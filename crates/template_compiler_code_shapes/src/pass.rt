//! A pass over the marked places of a stream of instructions.

ghost use Rattle.std.specs.Prelude.{◌≡◌, ◌∷◌, [], ℕ, suc, ◌<◌, ◌≤◌, length, true, false, replicate, Some, None, IfOk, IsErrOf, option_map, option_and_then, slice_get};
ghost use Rattle.template_compiler_code.specs.Listing.{code_in};
ghost use Rattle.template_compiler_code_shapes.specs.Effects.{aim_of, effect_at};
ghost use Rattle.template_compiler_code_shapes.specs.Outlines.{shape_of};
ghost use Rattle.template_compiler_code_shapes.specs.Ways.{effect_in};
ghost use Rattle.template_compiler_code_shapes.specs.Passes.{Marks, Works, Ready, PassEnds, IsBad};
ghost use Rattle.template_compiler_code_shapes.specs.Desks.{noted_in, waiting_in, room_in, flag_in, weight_of};

use crate::beside::aim;
use crate::desk::{Desk, Stop};
use crate::outline::Outline;
use crate::ways::{Ways, ways_at};
use std::alloc::{AllocError, Global};
use template_compiler_code::Instructions;

// Where the instruction at a place may lead but to the next.
fn aim_at(code: &Instructions<'_>, place: usize) -> Option<usize>
    requires { place < length (code_in code.now) }
    ensures { result ≡ option_and_then aim_of (slice_get (code_in code.now) place) }
{
    if place >= code.len() {
        return None;
    }
    match code.get(place as u32) {
        Some(instruction) => match aim(instruction) {
            Some(to) => Some(to as usize),
            None => None,
        },
        None => None,
    }
}

// Marks a place, where there is one.
fn mark_way(marks: &mut Vec<bool>, aim: Option<usize>)
    ensures has { (to : ℕ) → aim ≡ Some to → to < length marks.old.items → flag_in marks.new.items to ≡ true }
    ensures keeps { (q : ℕ) → flag_in marks.old.items q ≡ true → flag_in marks.new.items q ≡ true }
    ensures count { length marks.new.items ≡ length marks.old.items }
{
    if let Some(to) = aim {
        if to < marks.len() {
            marks[to] = true;
        }
    }
}

// So many flags that are false.
fn blank(alloc: Global, count: usize) -> Result<Vec<bool>, AllocError>
    ensures blank { IfOk result (λ flags. flags.items ≡ replicate count false) }
{
    let mut flags = Vec::new(alloc);
    for place in 0..count {
        flags.push(false)?;
    }
    Ok(flags)
}

// The marked places: the first, the end, and each to which an instruction may lead but the one before it.
fn marks_of(alloc: Global, code: &Instructions<'_>) -> Result<Vec<bool>, AllocError>
    ensures marks { IfOk result (λ marks. Marks (code_in code.now) (flag_in marks.items)) }
    ensures count { IfOk result (λ marks. length marks.items ≡ suc (length (code_in code.now))) }
{
    let len = code.len();
    let mut marks = blank(alloc, len + 1)?;
    marks[0] = true;
    marks[len] = true;
    for place in 0..len {
        let aim = aim_at(code, place);
        mark_way(&mut marks, aim);
    }
    Ok(marks)
}

// The ways on from the instruction at a place, with a shape.
fn ways_on(
    alloc: Global,
    code: &Instructions<'_>,
    place: usize,
    shape: Outline,
) -> Result<Ways, Stop>
    requires { place < length (code_in code.now) }
    ensures ways { IfOk result (λ ways. effect_at (code_in code.now) place (shape_of shape) ≡ Some (effect_in ways)) }
    ensures none { IsErrOf result Stop.Bad → effect_at (code_in code.now) place (shape_of shape) ≡ None }
{
    if place >= code.len() {
        return Err(Stop::Bad);
    }
    let Some(instruction) = code.get(place as u32) else {
        return Err(Stop::Bad);
    };
    match ways_at(alloc, code, place as u32, instruction, shape) {
        Ok(Some(ways)) => Ok(ways),
        Ok(None) => Err(Stop::Bad),
        Err(_refused) => Err(Stop::Memory),
    }
}

// Goes on from an instruction whose jumps are noted: to a marked place by a note, to another with the shape in hand.
fn settle(
    code: &Instructions<'_>,
    marks: &[bool],
    seen: &mut Vec<bool>,
    desk: &mut Desk,
    place: usize,
    falls: Option<Outline>,
) -> Result<Option<Outline>, Stop>
    requires marks { Marks (code_in code.now) (flag_in marks.now) }
    requires marked { length marks.now ≡ suc (length (code_in code.now)) }
    requires room { room_in desk.old ≡ suc (length (code_in code.now)) }
    requires seen { length seen.old.items ≡ length (code_in code.now) }
    requires within { place < length (code_in code.now) }
    requires ready { Ready (code_in code.now) (flag_in marks.now) (noted_in desk.old) (flag_in seen.old.items) (waiting_in desk.old) place
        (option_map shape_of falls) }
    ensures works { IfOk result (λ hand.
        Works (code_in code.now) (flag_in marks.now) (noted_in desk.new) (flag_in seen.new.items) (waiting_in desk.new) (suc place)
        (option_map shape_of hand)) }
    ensures bad { IsErrOf result Stop.Bad → IsBad (code_in code.now) }
    ensures room { room_in desk.new ≡ room_in desk.old }
    ensures seen { length seen.new.items ≡ length seen.old.items }
    ensures lighter { weight_of desk.new ≤ weight_of desk.old }
{
    seen[place] = true;
    let Some(shape) = falls else {
        return Ok(None);
    };
    if marks[place + 1] {
        desk.note(place + 1, shape)?;
        return Ok(None);
    }
    Ok(Some(shape))
}

// Visits the instruction in hand.
fn visit(
    alloc: Global,
    code: &Instructions<'_>,
    marks: &[bool],
    seen: &mut Vec<bool>,
    desk: &mut Desk,
    place: usize,
    shape: Outline,
) -> Result<Option<Outline>, Stop>
    requires marks { Marks (code_in code.now) (flag_in marks.now) }
    requires marked { length marks.now ≡ suc (length (code_in code.now)) }
    requires room { room_in desk.old ≡ suc (length (code_in code.now)) }
    requires seen { length seen.old.items ≡ length (code_in code.now) }
    requires within { place < length (code_in code.now) }
    requires works { Works (code_in code.now) (flag_in marks.now) (noted_in desk.old) (flag_in seen.old.items) (waiting_in desk.old) place
        (Some (shape_of shape)) }
    ensures works { IfOk result (λ hand.
        Works (code_in code.now) (flag_in marks.now) (noted_in desk.new) (flag_in seen.new.items) (waiting_in desk.new) (suc place)
        (option_map shape_of hand)) }
    ensures bad { IsErrOf result Stop.Bad → IsBad (code_in code.now) }
    ensures room { room_in desk.new ≡ room_in desk.old }
    ensures seen { length seen.new.items ≡ length seen.old.items }
    ensures lighter { weight_of desk.new ≤ weight_of desk.old }
{
    let ways = ways_on(alloc, code, place, shape)?;
    let Ways {
        falls,
        jumps,
        enters,
    } = ways;
    desk.note_jump(jumps)?;
    desk.note_jump(enters)?;
    settle(code, marks, seen, desk, place, falls)
}

// Goes on from a place that waits, as far as its shape is in hand.
fn run_from(
    alloc: Global,
    code: &Instructions<'_>,
    marks: &[bool],
    seen: &mut Vec<bool>,
    desk: &mut Desk,
    at: usize,
) -> Result<(), Stop>
    requires marks { Marks (code_in code.now) (flag_in marks.now) }
    requires marked { length marks.now ≡ suc (length (code_in code.now)) }
    requires room { room_in desk.old ≡ suc (length (code_in code.now)) }
    requires seen { length seen.old.items ≡ length (code_in code.now) }
    requires works { Works (code_in code.now) (flag_in marks.now) (noted_in desk.old) (flag_in seen.old.items)
        (at ∷ waiting_in desk.old) 0 None }
    ensures works { IfOk result (λ _.
        Works (code_in code.now) (flag_in marks.now) (noted_in desk.new) (flag_in seen.new.items) (waiting_in desk.new) 0 None) }
    ensures bad { IsErrOf result Stop.Bad → IsBad (code_in code.now) }
    ensures room { room_in desk.new ≡ room_in desk.old }
    ensures seen { length seen.new.items ≡ length seen.old.items }
    ensures lighter { weight_of desk.new ≤ weight_of desk.old }
{
    if at >= code.len() {
        return Ok(());
    }
    if seen[at] {
        return Ok(());
    }
    let first = desk.noted(at)?;
    let mut hand = first;
    let mut place = at;
    while let Some(shape) = hand {
        hand = visit(alloc, code, marks, seen, desk, place, shape)?;
        place += 1;
    }
    Ok(())
}

// Goes on from each place that waits, until none does.
fn run_all(
    alloc: Global,
    code: &Instructions<'_>,
    marks: &[bool],
    seen: &mut Vec<bool>,
    desk: &mut Desk,
) -> Result<(), Stop>
    requires marks { Marks (code_in code.now) (flag_in marks.now) }
    requires marked { length marks.now ≡ suc (length (code_in code.now)) }
    requires room { room_in desk.old ≡ suc (length (code_in code.now)) }
    requires seen { length seen.old.items ≡ length (code_in code.now) }
    requires works { Works (code_in code.now) (flag_in marks.now) (noted_in desk.old) (flag_in seen.old.items) (waiting_in desk.old) 0 None }
    ensures works { IfOk result (λ _. Works (code_in code.now) (flag_in marks.now) (noted_in desk.new) (flag_in seen.new.items) [] 0 None) }
    ensures bad { IsErrOf result Stop.Bad → IsBad (code_in code.now) }
    ensures room { room_in desk.new ≡ room_in desk.old }
{
    while let Some(at) = desk.next() {
        run_from(alloc, code, marks, seen, desk, at)?;
    }
    Ok(())
}

/// The shape at the end of the instructions, after a pass that visits each instruction which is reached once; none where
/// no way leads to the end. Takes at each as long as the shape there is deep, and memory for two flags a place and a shape
/// at each place to which an instruction may lead but the one before it.
///
/// # Errors
///
/// [`Stop::Bad`] for a stream that is good of neither kind, as far as its end does not tell, and [`Stop::Memory`].
pub fn shape_at_end(alloc: Global, code: &Instructions<'_>) -> Result<Option<Outline>, Stop>
    ensures ends { IfOk result (λ hand. PassEnds (code_in code.now) (option_map shape_of hand)) }
    ensures bad { IsErrOf result Stop.Bad → IsBad (code_in code.now) }
{
    let len = code.len();
    let Ok(marks) = marks_of(alloc, code) else {
        return Err(Stop::Memory);
    };
    let Ok(mut seen) = blank(alloc, len) else {
        return Err(Stop::Memory);
    };
    let Ok(mut desk) = Desk::begin(alloc, len + 1) else {
        return Err(Stop::Memory);
    };
    run_all(alloc, code, marks.as_slice(), &mut seen, &mut desk)?;
    let end = desk.noted(len)?;
    Ok(end)
}
