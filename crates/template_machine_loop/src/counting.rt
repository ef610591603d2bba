//! The numbers of macros, and of loops that may be called again, in code.
ghost use Rattle.std.specs.Prelude.{◌≡◌, ◌+◌, ◌<◌, ◌^◌, option_map, slice_get};
ghost use Rattle.template_compiler_code.specs.Counting as counting;
ghost use Rattle.template_compiler_code.specs.Counting.{names_listed};
ghost use Rattle.template_compiler_code.specs.Listing.{code_in};
ghost use Rattle.template_compiler_code.specs.View.{code_of};
ghost use Rattle.template_machine_loop.specs.Counting.{listed_before, offset_at, place_of};

use template_compiler_code::{Instruction, Instructions, Part};

/// Where the body of a macro begins, and how many values it takes.
#[derive(Clone, Copy)]
pub(crate) struct MacroPlace {
    /// Where it begins.
    pub(crate) offset: u32,
    /// How many values it takes.
    pub(crate) count: usize,
}

/// The macro of a number.
pub(crate) fn macro_at(code: &Instructions<'_>, number: usize) -> Option<MacroPlace>
    ensures { option_map place_of result ≡ counting.macro_at (code_in code.now) number }
{
    match code.part_place(Part::Macro, number) {
        Some(place) => Some(MacroPlace {
            offset: offset_at(code, place),
            count: listed_before(code, place),
        }),
        None => None,
    }
}

/// Where the rounds of the loop of a number begin.
pub(crate) fn rounds_at(code: &Instructions<'_>, number: usize) -> Option<u32>
    ensures { result ≡ counting.rounds_at (code_in code.now) number }
{
    let end = code.len();
    match code.part_place(Part::Rounds, number) {
        Some(place) => Some(behind(place, end)),
        None => None,
    }
}

// The place behind one that lies in code of this length.
fn behind(place: u32, end: usize) -> u32
    requires within { place < end }
    requires small { end < 2 ^ 32 }
    ensures { result ≡ place + 1 }
{
    place + 1
}

// Where the body of the macro begins that is made at a place.
fn offset_at(code: &Instructions<'_>, place: u32) -> u32
    ensures { result ≡ offset_at (slice_get (code_in code.now) place) }
{
    match code.get(place) {
        Some(Instruction::BuildMacro(_, offset, _)) => *offset,
        _ => 0,
    }
}

// How many names the instruction lists that stands before a place.
fn listed_before(code: &Instructions<'_>, place: u32) -> usize
    ensures { result ≡ listed_before 0 place (code_in code.now) }
{
    if place == 0 {
        return 0;
    }
    match code.get(place - 1) {
        Some(instruction) => names_listed(instruction),
        None => 0,
    }
}

// How many names a constant lists.
fn names_listed(instruction: &Instruction<'_>) -> usize
    ensures { result ≡ names_listed (code_of instruction.now) }
{
    match instruction {
        Instruction::LoadConst(value) => match value.items() {
            Some(items) => items.len(),
            None => 0,
        },
        _ => 0,
    }
}
