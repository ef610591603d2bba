//! What an instruction reads of those beside it.

ghost use Rattle.std.specs.Prelude.{◌≡◌, ◌&&◌, suc, slice_get, option_map, is_some};
ghost use Rattle.template_values_core.specs.Answers.{text_in};
ghost use Rattle.template_compiler_code.specs.Listing.{code_in};
ghost use Rattle.template_compiler_code.specs.View.{code_of};
ghost use Rattle.template_compiler_code_shapes.specs.Effects.{is_iterate, leans, may_lead, code_before, loads_one, adds, ends_capture, are_texts, texts_held, texts_loaded, aim_of};

use template_compiler_code::{Instruction, Instructions};
use template_values_core::{Content, Value};

/// Where an instruction may lead but to the next.
pub fn aim(instruction: &Instruction) -> Option<u32>
    ensures { result ≡ aim_of (code_of instruction.now) }
{
    match instruction {
        Instruction::Jump(to)
        | Instruction::JumpIfFalse(to)
        | Instruction::JumpIfFalseOrPop(to)
        | Instruction::JumpIfTrueOrPop(to)
        | Instruction::Iterate(to)
        | Instruction::BuildMacro(_, to, _) => Some(*to),
        _ => None,
    }
}

/// The instruction before a place.
pub fn before<'a, 'source>(
    code: &'a Instructions<'source>,
    place: u32,
) -> Option<&'a Instruction<'source>>
    ensures { option_map (λ i. code_of i.now) result ≡ code_before (code_in code.now) place }
{
    if place == 0 {
        return None;
    }
    code.get(place - 1)
}

/// The instruction behind a place.
pub fn next<'a, 'source>(
    code: &'a Instructions<'source>,
    place: u32,
) -> Option<&'a Instruction<'source>>
    ensures { option_map (λ i. code_of i.now) result ≡ slice_get (code_in code.now) (suc place) }
{
    if place as usize + 1 >= code.len() {
        return None;
    }
    code.get(place + 1)
}

// The one behind that.
fn second<'a, 'source>(
    code: &'a Instructions<'source>,
    place: u32,
) -> Option<&'a Instruction<'source>>
    ensures { option_map (λ i. code_of i.now) result ≡ slice_get (code_in code.now) (suc (suc place)) }
{
    if place as usize + 2 >= code.len() {
        return None;
    }
    code.get(place + 2)
}

/// Whether it asks a loop for its next item.
pub fn asks_item(instruction: Option<&Instruction>) -> bool
    ensures { result ≡ is_iterate (option_map (λ i. code_of i.now) instruction.entry) }
{
    match instruction {
        Some(Instruction::Iterate(_)) => true,
        _ => false,
    }
}

// Whether it loads the number 1.
fn is_load_of_one(instruction: Option<&Instruction>) -> bool
    ensures { result ≡ loads_one (option_map (λ i. code_of i.now) instruction.entry) }
{
    match instruction {
        Some(Instruction::LoadConst(value)) => match value.content() {
            Content::Int(number) => number == 1,
            _ => false,
        },
        _ => false,
    }
}

// Whether it adds.
fn is_add(instruction: Option<&Instruction>) -> bool
    ensures { result ≡ adds (option_map (λ i. code_of i.now) instruction.entry) }
{
    match instruction {
        Some(Instruction::Add) => true,
        _ => false,
    }
}

/// Whether it ends a capture.
pub fn is_end_of_capture(instruction: Option<&Instruction>) -> bool
    ensures { result ≡ ends_capture (option_map (λ i. code_of i.now) instruction.entry) }
{
    match instruction {
        Some(Instruction::EndCapture) => true,
        _ => false,
    }
}

// Whether it is a text, safe or not.
fn is_text(value: &Value) -> bool
    ensures { result ≡ is_some (text_in value.now) }
{
    match value.content() {
        Content::Text(_) | Content::SafeText(_) => true,
        _ => false,
    }
}

// Whether all are texts.
fn hold_texts(values: &[Value]) -> bool
    ensures { result ≡ are_texts values.now }
{
    values.iter().all(|value| is_text(value))
}

// How many texts a list holds that holds nothing else.
fn count_of_held(value: &Value) -> Option<usize>
    ensures { result ≡ texts_held value.now }
{
    match value.content() {
        Content::List(items) => {
            if hold_texts(items) {
                Some(items.len())
            } else {
                None
            }
        }
        _ => None,
    }
}

/// How many texts it loads as a list.
pub fn count_of_texts(instruction: Option<&Instruction>) -> Option<usize>
    ensures { result ≡ texts_loaded (option_map (λ i. code_of i.now) instruction.entry) }
{
    match instruction {
        Some(Instruction::LoadConst(value)) => count_of_held(value),
        _ => None,
    }
}

/// Whether 1 is loaded behind a place and then added.
pub fn adds_one(code: &Instructions<'_>, place: u32) -> bool
    ensures { result ≡ (loads_one (slice_get (code_in code.now) (suc place)) && adds (slice_get (code_in code.now) (suc (suc place)))) }
{
    is_load_of_one(next(code, place)) && is_add(second(code, place))
}

// Whether it leans on the instruction before it.
fn is_leaning(instruction: Option<&Instruction>) -> bool
    ensures { result ≡ leans (option_map (λ i. code_of i.now) instruction.entry) }
{
    match instruction {
        Some(Instruction::BuildMacro(_, _, _)) | Some(Instruction::ExportLocals) => true,
        _ => false,
    }
}

/// Whether a place lies within the code or at its end, and no instruction stands there that leans on the one before it.
pub fn may_lead_to(code: &Instructions, to: u32) -> bool
    ensures { result ≡ may_lead (code_in code.now) to }
{
    to as usize <= code.len() && !is_leaning(code.get(to))
}
