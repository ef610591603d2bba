//! The pass that numbers names.
ghost use Rattle.std.specs.Prelude.{◌≡◌, ◌≤◌, IfOk, IfErr, OnOk, OnErr, bytes_eq, length, map};
ghost use Rattle.std.specs.List.{position};
ghost use Rattle.template_values_errors.specs.Memory.{NoMemory};
ghost use Rattle.template_compiler_code.specs.Listing.{code_in, places_in, IsSameTemplate};
ghost use Rattle.template_compiler_generator.specs.Numbers.{Numbers, bare, name_at, names_at, number_among, numbered_in, with_name};

use std::alloc::Global;
use template_compiler_code::{Instruction, Instructions, LocalId, MAX_LOCALS};
use template_values_errors::Error;

// The number of a name that has none of its own.
const NO_NUMBER: LocalId = u8::MAX;

/// Gives the filters of a stream their numbers: the first 50 names of filters have the numbers from 0 on, in the order in
/// which they first stand, and the others have 255. And so the tests, whose names are numbered apart from those. Whatever
/// numbers they had is forgotten. Takes a pass over the instructions, and at each filter and each test as many comparisons
/// of names as names have numbers.
///
/// # Errors
///
/// [`ErrorKind::OutOfMemory`](template_values_errors::ErrorKind::OutOfMemory); then some of them may have their numbers,
/// and all else stays.
pub fn number_names(alloc: Global, code: &mut Instructions<'_>) -> Result<(), Error>
    ensures numbered { OnOk result (code_in code.new ≡ numbered_in (code_in code.old)) }
    ensures kept { map bare (code_in code.new) ≡ map bare (code_in code.old) }
    ensures same { IsSameTemplate code.old code.new }
    ensures places { places_in code.new ≡ places_in code.old }
    ensures refused { IfErr result NoMemory }
{
    let mut filters = Vec::new(alloc);
    let mut tests = Vec::new(alloc);
    for place in 0..code.len() as u32 {
        number_at(code, place, &mut filters, &mut tests)?;
    }
    Ok(())
}

// Numbers the instruction at a place, where it is a filter or a test. The lists hold where the names stand first that have
// numbers.
fn number_at(
    code: &mut Instructions<'_>,
    place: u32,
    filters: &mut Vec<u32>,
    tests: &mut Vec<u32>,
) -> Result<(), Error>
    requires filters { length filters.old.items ≤ 50 }
    requires tests { length tests.old.items ≤ 50 }
    ensures filters { length filters.new.items ≤ 50 }
    ensures tests { length tests.new.items ≤ 50 }
    ensures numbered { OnOk result (Numbers (code_in code.old) (code_in code.new) place
        (names_at (code_in code.old) filters.old.items tests.old.items) (names_at (code_in code.new) filters.new.items tests.new.items)) }
    ensures unchanged { OnErr result (code_in code.new ≡ code_in code.old) }
    ensures same { IsSameTemplate code.old code.new }
    ensures places { places_in code.new ≡ places_in code.old }
    ensures refused { IfErr result NoMemory }
{
    match code.get(place) {
        Some(instruction) => match instruction {
            Instruction::ApplyFilter(name, count, _) => {
                let number = number_of(code, filters, name.as_str(), place)?;
                let numbered = Instruction::ApplyFilter(name.clone()?, *count, number);
                code.replace(place, numbered);
                Ok(())
            }
            Instruction::PerformTest(name, count, _) => {
                let number = number_of(code, tests, name.as_str(), place)?;
                let numbered = Instruction::PerformTest(name.clone()?, *count, number);
                code.replace(place, numbered);
                Ok(())
            }
            _ => Ok(()),
        },
        None => Ok(()),
    }
}

// The number of the name that stands at a place, which has the next one where it has none yet.
fn number_of(
    code: &Instructions<'_>,
    names: &mut Vec<u32>,
    name: &str,
    place: u32,
) -> Result<LocalId, Error>
    requires few { length names.old.items ≤ 50 }
    requires stands { name_at (code_in code.now) place ≡ name.now }
    ensures few { length names.new.items ≤ 50 }
    ensures names { OnOk result (map (name_at (code_in code.now)) names.new.items
        ≡ with_name (map (name_at (code_in code.now)) names.old.items) name.now) }
    ensures number { IfOk result (λ n. n ≡ number_among (map (name_at (code_in code.now)) names.new.items) name.now) }
    ensures refused { IfErr result NoMemory }
{
    match place_among(code, names, name) {
        Some(number) => Ok(number as LocalId),
        None => {
            let next = names.len();
            if next >= MAX_LOCALS {
                return Ok(NO_NUMBER);
            }
            names.push(place)?;
            Ok(next as LocalId)
        }
    }
}

// Which of the places is the first where a name stands.
fn place_among(code: &Instructions<'_>, places: &[u32], name: &str) -> Option<usize>
    ensures { result ≡ position (λ place. bytes_eq (name_at (code_in code.now) place) name.now) places.now }
{
    places
        .iter()
        .position(|place| name_at(code, *place) == name)
}

// The name of the filter or of the test at a place.
fn name_at<'a>(code: &'a Instructions<'_>, place: u32) -> &'a str
    ensures { result.now ≡ name_at (code_in code.now) place }
{
    match code.get(place) {
        Some(Instruction::ApplyFilter(name, _, _)) => name.as_str(),
        Some(Instruction::PerformTest(name, _, _)) => name.as_str(),
        _ => "",
    }
}
