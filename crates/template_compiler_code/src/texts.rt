//! The texts that instructions write as they stand.
ghost use Rattle.std.specs.Prelude.{◌≡◌, ◌*◌, min, slice_get};
ghost use Rattle.std.specs.List.{sum_by};
ghost use Rattle.std.specs.Option.{option_map_or};
ghost use Rattle.template_compiler_code.specs.Listing.{code_in};
ghost use Rattle.template_compiler_code.specs.Texts.{raw_length};

use crate::{Instruction, Instructions};

/// How much room for what instructions write is worth asking for: twice the bytes of the texts in them, as far as a `usize`
/// goes. Linear in the instructions.
pub fn buffer_size_hint(code: &Instructions<'_>) -> usize
    ensures { result ≡ min (2 * sum_by raw_length (code_in code.now)) usize.MAX }
{
    let count = code.len() as u32;
    let mut raw: usize = 0;
    for place in 0..count {
        raw = raw.saturating_add(raw_length(code, place));
    }
    raw.saturating_mul(2)
}

// How many bytes of text the instruction at a place writes as it stands.
fn raw_length(code: &Instructions<'_>, place: u32) -> usize
    ensures { result ≡ option_map_or raw_length (slice_get (code_in code.now) place) 0 }
{
    match code.get(place) {
        Some(Instruction::EmitRaw(text)) => text.as_str().len(),
        _ => 0,
    }
}
