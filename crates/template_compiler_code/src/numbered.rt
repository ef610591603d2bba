//! Where what is found by its number stands in code: the macros that are made, and the loops that may be called again.

ghost use Rattle.std.specs.Prelude.{◌≡◌, ◌^◌, ◌<◌, ◌≤◌, ◌++◌, [], IfOk, if◌then◌else◌, length, ltb, map, slice_get, true, false};
ghost use Rattle.std.specs.List.Sorted.{IsPartitionPoint, IsPartitionedBy};
ghost use Rattle.template_compiler_code.specs.Counting.{count_of, counts_of, is_recursive, places_from};
ghost use Rattle.template_compiler_code.specs.View.{code_of};

use crate::instruction::{Instruction, LOOP_FLAG_RECURSIVE};
use std::alloc::{AllocError, Global};

/// What code numbers, each kind by itself, in the order of the instructions.
#[derive(Clone, Copy)]
pub enum Part {
    /// Macros, where they are made.
    Macro,
    /// Loops that may be called again, where they are opened.
    Rounds,
}

// Where the parts of one kind stand. Linear in the code.
pub(crate) fn places_of(
    alloc: Global,
    part: Part,
    code: &[Instruction<'_>],
) -> Result<Vec<u32>, AllocError>
    requires { length code.now < 2 ^ 32 }
    ensures { IfOk result (λ places. places.items ≡ places_from part 0 (map code_of code.now)) }
{
    let mut places = Vec::new(alloc);
    let mut place = 0;
    for instruction in code {
        if is_counted(part, instruction) {
            places.push(place)?;
        }
        place += 1;
    }
    Ok(places)
}

// Whether the instruction is such a part.
pub(crate) fn is_counted(part: Part, instruction: &Instruction<'_>) -> bool
    ensures { count_of part (counts_of (code_of instruction.now)) ≡ if result then 1 else 0 }
{
    match part {
        Part::Macro => matches!(instruction, Instruction::BuildMacro(_, _, _)),
        Part::Rounds => match instruction {
            Instruction::PushLoop(flags) => may_be_called(*flags),
            _ => false,
        },
    }
}

fn may_be_called(flags: u8) -> bool
    ensures { result ≡ is_recursive flags }
{
    flags & LOOP_FLAG_RECURSIVE == LOOP_FLAG_RECURSIVE
}

// How many of the places are before one.
pub(crate) fn count_before(places: &[u32], place: u32) -> usize
    ensures bound { result ≤ length places.now }
    ensures count { IsPartitionedBy (λ p. ltb p place) places.now
        → IsPartitionPoint (λ p. ltb p place ≡ true) (λ p. ltb p place ≡ false) places.now result }
{
    places.partition_point(|p| *p < place)
}

// The place that is listed under a number.
pub(crate) fn place_at(places: &[u32], number: usize) -> Option<u32>
    ensures { result ≡ slice_get places.now number }
{
    places.get(number).copied()
}
