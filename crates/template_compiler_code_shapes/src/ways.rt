//! Where an instruction leads, with which shapes.

ghost use Rattle.std.specs.Prelude.{◌≡◌, ◌&&◌, Some, None, IfOk, IfErr, option_map, slice_get, suc, if◌then◌else◌, ◌*◌};
ghost use Rattle.template_values_errors.specs.Memory.{NoMemory};
ghost use Rattle.template_compiler_code.specs.Listing.{code_in};
ghost use Rattle.template_compiler_code.specs.Code.{export_locals, jump_if_false, jump_if_false_or_pop, iterate, push_loop, return};
ghost use Rattle.template_compiler_code.specs.View.{code_of};
ghost use Rattle.template_compiler_code_shapes.specs.Shapes.{single_form, counted_form, counting_form, given, handed, taken};
ghost use Rattle.template_compiler_code_shapes.specs.Effects.{traded, made, making, swapped, operated, may_jump, falling, jumping, effect_of, code_before, loads_one, adds, texts_loaded};
ghost use Rattle.template_compiler_code_shapes.specs.Outlines.{form_in, shape_of, pair_taken};
ghost use Rattle.template_compiler_code_shapes.specs.Ways.{effect_in, IsScope};

use crate::beside::{
    adds_one, asks_item, before, count_of_texts, is_end_of_capture, may_lead_to, next,
};
use crate::outline::{Opened, Other, Outline};
use std::alloc::Global;
use template_compiler_code::{Instruction, Instructions, iterates_past};
use template_values_errors::{Error, ErrorKind};

/// A jump, with its shape.
#[derive(Drop)]
pub struct Jump {
    pub to: u32,
    pub shape: Outline,
}

/// The ways on from an instruction: behind it, by a jump, and into the body of a macro that it makes.
#[derive(Drop)]
pub struct Ways {
    pub falls: Option<Outline>,
    pub jumps: Option<Jump>,
    pub enters: Option<Jump>,
}

/// The way behind an instruction alone.
pub fn falling_ways(shape: Outline) -> Ways
    ensures { effect_in result ≡ falling (shape_of shape) }
{
    Ways {
        falls: Some(shape),
        jumps: None,
        enters: None,
    }
}

/// So many values are put on top.
fn give(shape: Outline, gives: usize) -> Result<Option<Ways>, Error>
    ensures ways { IfOk result (λ ways. option_map effect_in ways ≡ Some (falling (given gives (shape_of shape)))) }
    ensures refused { IfErr result NoMemory }
{
    let mut shape = shape;
    shape.give(gives)?;
    Ok(Some(falling_ways(shape)))
}

/// So many values are taken, and so many given.
pub fn trade(shape: Outline, takes: usize, gives: usize) -> Result<Option<Ways>, Error>
    ensures ways { IfOk result (λ ways. option_map effect_in ways ≡ traded takes gives (shape_of shape)) }
    ensures refused { IfErr result NoMemory }
{
    let mut shape = shape;
    if !shape.take(takes)? {
        return Ok(None);
    }
    give(shape, gives)
}

/// So many values, or a counted run, are made into one.
fn hand(shape: Outline, count: Option<usize>) -> Result<Option<Ways>, Error>
    ensures ways { IfOk result (λ ways. option_map effect_in ways ≡ made single_form (handed count (shape_of shape))) }
    ensures refused { IfErr result NoMemory }
{
    let mut shape = shape;
    let is_taken = match count {
        Some(count) => shape.take(count)?,
        None => shape.take_run()?,
    };
    if !is_taken {
        return Ok(None);
    }
    give(shape, 1)
}

/// The same, where the count is that of a call.
fn call(shape: Outline, count: Option<u16>) -> Result<Option<Ways>, Error>
    ensures ways { IfOk result (λ ways. option_map effect_in ways ≡ made single_form (handed count (shape_of shape))) }
    ensures refused { IfErr result NoMemory }
{
    match count {
        Some(count) => hand(shape, Some(count as usize)),
        None => hand(shape, None),
    }
}

/// So many values are made into a counted run.
fn spread(shape: Outline, count: usize) -> Result<Option<Ways>, Error>
    ensures ways { IfOk result (λ ways. option_map effect_in ways ≡ made counted_form (taken count (shape_of shape))) }
    ensures refused { IfErr result NoMemory }
{
    let mut shape = shape;
    if !shape.take(count)? {
        return Ok(None);
    }
    shape.top(Other::Counted)?;
    Ok(Some(falling_ways(shape)))
}

/// A value and such an operand under it are made into another one.
fn lift(shape: Outline, under: Other, other: Other) -> Result<Option<Ways>, Error>
    ensures ways { IfOk result (λ ways. option_map effect_in ways ≡ made (form_in other) (pair_taken (form_in under) (shape_of shape))) }
    ensures refused { IfErr result NoMemory }
{
    let mut shape = shape;
    if !shape.take_pair(under)? {
        return Ok(None);
    }
    shape.top(other)?;
    Ok(Some(falling_ways(shape)))
}

/// A value goes above the counted run under it, where 1 is loaded next and added.
fn count_ways(code: &Instructions, place: u32, shape: Outline) -> Result<Option<Ways>, Error>
    ensures ways { IfOk result (λ ways. option_map effect_in ways
        ≡ (if loads_one (slice_get (code_in code.now) (suc place)) && adds (slice_get (code_in code.now) (suc (suc place)))
        then made counting_form (pair_taken counted_form (shape_of shape))
        else None)) }
    ensures refused { IfErr result NoMemory }
{
    if adds_one(code, place) {
        return lift(shape, Other::Counted, Other::Counting);
    }
    Ok(None)
}

/// Two values change places, or a value goes above the counted run under it.
fn swap_ways(code: &Instructions, place: u32, shape: Outline) -> Result<Option<Ways>, Error>
    ensures ways { IfOk result
        (λ ways. option_map effect_in ways ≡ swapped (code_in code.now) place (shape_of shape) (shape_of shape).operands) }
    ensures refused { IfErr result NoMemory }
{
    if shape.has_under(Other::Counted) {
        let row = count_ways(code, place, shape)?;
        return Ok(row);
    }
    let values = trade(shape, 2, 2)?;
    Ok(values)
}

/// Two values make one, or 1 is added to a counted run and the value that goes into it.
fn operate_ways(shape: Outline, adding: bool) -> Result<Option<Ways>, Error>
    ensures ways { IfOk result
        (λ ways. option_map effect_in ways ≡ operated adding (shape_of shape) (shape_of shape).operands) }
    ensures refused { IfErr result NoMemory }
{
    if !shape.has_under(Other::Counting) {
        return trade(shape, 2, 1);
    }
    if !adding {
        return Ok(None);
    }
    let mut shape = shape;
    if !shape.take_pair(Other::Counting)? {
        return Ok(None);
    }
    shape.top(Other::Counted)?;
    Ok(Some(falling_ways(shape)))
}

/// A macro is made, whose body begins at an offset.
fn macro_ways(
    alloc: Global,
    code: &Instructions,
    place: u32,
    offset: u32,
    shape: Outline,
) -> Result<Option<Ways>, Error>
    ensures ways { IfOk result (λ ways. option_map effect_in ways
        ≡ making (code_in code.now) offset (texts_loaded (code_before (code_in code.now) place)) (shape_of shape)) }
    ensures refused { IfErr result NoMemory }
{
    let Some(count) = count_of_texts(before(code, place)) else {
        return Ok(None);
    };
    if !may_lead_to(code, offset) {
        return Ok(None);
    }
    let mut shape = shape;
    if !shape.take_pair(Other::Closure)? {
        return Ok(None);
    }
    shape.give(1)?;
    Ok(Some(Ways {
        falls: Some(shape),
        jumps: None,
        enters: Some(Jump {
            to: offset,
            shape: Outline::body(alloc, count),
        }),
    }))
}

/// A module is made of the text of a capture.
fn export_ways(code: &Instructions, place: u32, shape: Outline) -> Result<Option<Ways>, Error>
    ensures ways { IfOk result (λ ways. option_map effect_in ways ≡ effect_of (code_in code.now) place export_locals (shape_of shape)) }
    ensures refused { IfErr result NoMemory }
{
    if !is_end_of_capture(before(code, place)) {
        return Ok(None);
    }
    trade(shape, 1, 1)
}

/// The body of a macro ends.
fn return_ways(alloc: Global, code: &Instructions, place: u32, shape: Outline) -> Option<Ways>
    ensures { option_map effect_in result ≡ effect_of (code_in code.now) place return (shape_of shape) }
{
    if !shape.is_over(alloc) {
        return None;
    }
    Some(Ways {
        falls: None,
        jumps: None,
        enters: None,
    })
}

/// Whether a jump is admissible.
pub fn may_jump_to(code: &Instructions, place: u32, shape: &Outline, to: u32) -> bool
    ensures { result ≡ may_jump (code_in code.now) place (shape_of shape.now) to }
{
    if place < to {
        return may_lead_to(code, to);
    }
    match shape.innermost_loop() {
        Some(push) => {
            if to as u64 != push as u64 + 1 {
                return false;
            }
            iterates_past(code, to, place)
        }
        None => false,
    }
}

/// A jump with a shape, where it is admissible.
pub fn jump_ways(
    code: &Instructions,
    place: u32,
    falls: Option<Outline>,
    to: u32,
    shape: Outline,
) -> Option<Ways>
    ensures { option_map effect_in result ≡ jumping (code_in code.now) place (option_map shape_of falls) to (shape_of shape) }
{
    if may_jump_to(code, place, &shape, to) {
        Some(Ways {
            falls,
            jumps: Some(Jump { to, shape }),
            enters: None,
        })
    } else {
        None
    }
}

/// The same shape once more.
fn copied(shape: &Outline) -> Result<Outline, Error>
    ensures copied { IfOk result (λ other. shape_of other ≡ shape_of shape.now) }
    ensures refused { IfErr result NoMemory }
{
    match shape.copy() {
        Ok(other) => Ok(other),
        Err(_refused) => Err(Error::new(ErrorKind::OutOfMemory)),
    }
}

/// The ways of a conditional jump that takes its value.
pub fn branch(
    code: &Instructions,
    place: u32,
    to: u32,
    shape: Outline,
) -> Result<Option<Ways>, Error>
    ensures ways { IfOk result (λ ways. option_map effect_in ways ≡ effect_of (code_in code.now) place (jump_if_false to) (shape_of shape)) }
    ensures refused { IfErr result NoMemory }
{
    let mut below = shape;
    if !below.take(1)? {
        return Ok(None);
    }
    let there = copied(&below)?;
    Ok(jump_ways(code, place, Some(below), to, there))
}

/// The ways of a conditional jump that keeps its value where it jumps.
pub fn branch_or_pop(
    code: &Instructions,
    place: u32,
    to: u32,
    shape: Outline,
) -> Result<Option<Ways>, Error>
    ensures ways { IfOk result
        (λ ways. option_map effect_in ways ≡ effect_of (code_in code.now) place (jump_if_false_or_pop to) (shape_of shape)) }
    ensures refused { IfErr result NoMemory }
{
    let mut below = copied(&shape)?;
    if !below.take(1)? {
        return Ok(None);
    }
    Ok(jump_ways(code, place, Some(below), to, shape))
}

/// The ways of an `Iterate`.
pub fn iterate_ways(
    code: &Instructions,
    place: u32,
    to: u32,
    shape: Outline,
) -> Result<Option<Ways>, Error>
    ensures ways { IfOk result (λ ways. option_map effect_in ways ≡ effect_of (code_in code.now) place (iterate to) (shape_of shape)) }
    ensures refused { IfErr result NoMemory }
{
    let is_home = match shape.innermost_loop() {
        Some(push) => place as u64 == push as u64 + 1,
        None => false,
    };
    if !is_home || place >= to || !may_lead_to(code, to) {
        return Ok(None);
    }
    let mut falls = copied(&shape)?;
    falls.give(1)?;
    Ok(Some(Ways {
        falls: Some(falls),
        jumps: Some(Jump { to, shape }),
        enters: None,
    }))
}

/// The ways of a `PushLoop`.
pub fn loop_ways(
    code: &Instructions,
    place: u32,
    flags: u8,
    shape: Outline,
) -> Result<Option<Ways>, Error>
    ensures ways { IfOk result (λ ways. option_map effect_in ways ≡ effect_of (code_in code.now) place (push_loop flags) (shape_of shape)) }
    ensures refused { IfErr result NoMemory }
{
    if !asks_item(next(code, place)) {
        return Ok(None);
    }
    let mut shape = shape;
    if !shape.take(1)? {
        return Ok(None);
    }
    let frame = shape.loop_frame(flags, place)?;
    shape.open(frame)?;
    Ok(Some(falling_ways(shape)))
}

/// The ways of the instructions that open or close something.
pub fn scope_ways(
    code: &Instructions,
    place: u32,
    instruction: &Instruction,
    shape: Outline,
) -> Result<Option<Ways>, Error>
    ensures ways { IfOk result
        (λ ways. IsScope (code_of instruction.now)
        → option_map effect_in ways ≡ effect_of (code_in code.now) place (code_of instruction.now) (shape_of shape)) }
    ensures refused { IfErr result NoMemory }
{
    let mut shape = shape;
    let admissible = match instruction {
        Instruction::PushWith => {
            shape.open(Opened::With)?;
            true
        }
        Instruction::PopFrame => shape.close_frame(),
        Instruction::PopLoopFrame => shape.close_loop(),
        Instruction::PopAutoEscape => shape.close_escape(),
        Instruction::PushAutoEscape => {
            let is_taken = shape.take(1)?;
            shape.open_escape()?;
            is_taken
        }
        Instruction::BeginCapture(_) => {
            shape.open_capture()?;
            true
        }
        Instruction::EndCapture => {
            let is_closed = shape.close_capture();
            shape.give(1)?;
            is_closed
        }
        _ => false,
    };
    Ok(if admissible {
        Some(falling_ways(shape))
    } else {
        None
    })
}

/// So many pairs of values are taken, and one value is given.
#[tactic(auto, using(crate::proofs::OutlineLemmas::takes_too_many))]
fn trade_pairs(shape: Outline, pairs: usize) -> Result<Option<Ways>, Error>
    ensures ways { IfOk result (λ ways. option_map effect_in ways ≡ traded (pairs * 2) 1 (shape_of shape)) }
    ensures refused { IfErr result NoMemory }
{
    if pairs > shape.values() / 2 {
        return Ok(None);
    }
    trade(shape, pairs * 2, 1)
}

/// The ways on from the instruction at a place, with a shape; none where it is not admissible.
///
/// # Errors
///
/// [`ErrorKind::OutOfMemory`].
pub fn ways_at(
    alloc: Global,
    code: &Instructions,
    place: u32,
    instruction: &Instruction,
    shape: Outline,
) -> Result<Option<Ways>, Error>
    ensures ways { IfOk result
        (λ ways. option_map effect_in ways ≡ effect_of (code_in code.now) place (code_of instruction.now) (shape_of shape)) }
    ensures refused { IfErr result NoMemory }
{
    match instruction {
        Instruction::EmitRaw(_)
        | Instruction::FastSuper
        | Instruction::CallBlock(_)
        | Instruction::Enclose(_) => Ok(Some(falling_ways(shape))),
        Instruction::Lookup(_) | Instruction::LoadConst(_) => give(shape, 1),
        Instruction::PushDidNotIterate => {
            if shape.innermost_loop().is_none() {
                return Ok(None);
            }
            give(shape, 1)
        }
        Instruction::Emit
        | Instruction::StoreLocal(_)
        | Instruction::DiscardTop
        | Instruction::FastRecurse
        | Instruction::LoadBlocks
        | Instruction::Include(_) => trade(shape, 1, 0),
        Instruction::SetAttr(_) => trade(shape, 2, 0),
        Instruction::GetAttr(_) | Instruction::Neg | Instruction::Not | Instruction::IsUndefined =>
            trade(shape, 1, 1),
        Instruction::GetItem => trade(shape, 2, 1),
        Instruction::Add => operate_ways(shape, true),
        Instruction::Sub
        | Instruction::Mul
        | Instruction::Div
        | Instruction::IntDiv
        | Instruction::Rem
        | Instruction::Pow
        | Instruction::Eq
        | Instruction::Ne
        | Instruction::Gt
        | Instruction::Gte
        | Instruction::Lt
        | Instruction::Lte
        | Instruction::StringConcat
        | Instruction::In => operate_ways(shape, false),
        Instruction::Slice => trade(shape, 4, 1),
        Instruction::CompareAndPreserve(_) => trade(shape, 2, 2),
        Instruction::Swap => swap_ways(code, place, shape),
        Instruction::DupTop => trade(shape, 1, 2),
        Instruction::BuildMap(count) | Instruction::BuildKwargs(count) => trade_pairs(
            shape, *count,
        ),
        Instruction::MergeKwargs(count) => trade(shape, *count, 1),
        Instruction::BuildList(count) | Instruction::BuildTuple(count) => hand(shape, *count),
        Instruction::UnpackList(count) => trade(shape, 1, *count),
        Instruction::UnpackLists(count) => spread(shape, *count),
        Instruction::ApplyFilter(_, count, _)
        | Instruction::PerformTest(_, count, _)
        | Instruction::CallFunction(_, count)
        | Instruction::CallMethod(_, count)
        | Instruction::CallObject(count) => call(shape, *count),
        Instruction::Jump(to) => Ok(jump_ways(code, place, None, *to, shape)),
        Instruction::JumpIfFalse(to) => branch(code, place, *to, shape),
        Instruction::JumpIfFalseOrPop(to) | Instruction::JumpIfTrueOrPop(to) => branch_or_pop(
            code, place, *to, shape,
        ),
        Instruction::PushLoop(flags) => loop_ways(code, place, *flags, shape),
        Instruction::Iterate(to) => iterate_ways(code, place, *to, shape),
        Instruction::PushWith
        | Instruction::PopFrame
        | Instruction::PopLoopFrame
        | Instruction::PushAutoEscape
        | Instruction::PopAutoEscape
        | Instruction::BeginCapture(_)
        | Instruction::EndCapture => scope_ways(code, place, instruction, shape),
        Instruction::ExportLocals => export_ways(code, place, shape),
        Instruction::GetClosure => {
            let mut shape = shape;
            shape.top(Other::Closure)?;
            Ok(Some(falling_ways(shape)))
        }
        Instruction::BuildMacro(_, offset, _) => macro_ways(alloc, code, place, *offset, shape),
        Instruction::Return => Ok(return_ways(alloc, code, place, shape)),
    }
}
