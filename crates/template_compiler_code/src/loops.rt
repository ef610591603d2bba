//! Where loops lead.
ghost use Rattle.std.specs.Prelude.{◌≡◌, slice_get};
ghost use Rattle.template_compiler_code.specs.Listing.{code_in};
ghost use Rattle.template_compiler_code.specs.Loops.{is_iterate_past};

use crate::{Instruction, Instructions};

/// Whether a loop asks for its next item at a place of the code, and leads past another place where it has none.
pub fn iterates_past(code: &Instructions<'_>, asks: u32, place: u32) -> bool
    ensures { result ≡ is_iterate_past place (slice_get (code_in code.now) asks) }
{
    match code.get(asks) {
        Some(Instruction::Iterate(past)) => place < *past,
        _ => false,
    }
}
