//! The breaks of a loop, which are told their target once the loop's end is known.

ghost use Rattle.std.specs.Prelude.{◌≡◌, length};
ghost use Rattle.template_compiler_code.specs.Listing.{code_in};
ghost use Rattle.template_compiler_emission.specs.Puts.{Keeps};
ghost use Rattle.template_compiler_statement_codegen.specs.Breaks.{led};
ghost use Rattle.template_compiler_statement_codegen.specs.Laws.{BreaksLead};

use template_compiler_code::Instructions;
use template_compiler_emission::{Leap, land};

/// Tells the jumps at the places where they lead: behind the last instruction. Linear in their number.
#[inline(always)]
pub fn tell_breaks<'source>(code: &mut Instructions<'source>, breaks: Vec<u32>)
    ensures told { code_in code.new ≡ led (length (code_in code.old)) breaks.items (code_in code.old) }
    ensures same { Keeps code.old code.new }
{
    let mut left = breaks;
    while let Some(place) = left.pop() {
        land(code, place, Leap::Always);
    }
}

/// Told where the loop ends, the breaks of its body lead there, and else the body's code stays.
pub fn breaks_lead()
    ensures { BreaksLead }
{}
