//! Streams of instructions that can be run.

ghost use Rattle.std.specs.Prelude.{◌≡◌, ◌⊎◌, ◌∷◌, [], IfOk, IfErr};
ghost use Rattle.template_compiler_code.specs.Listing.{code_in};
ghost use Rattle.template_compiler_code_shapes.specs.Streams.{IsGood};
ghost use Rattle.template_compiler_code_shapes.specs.Passes.{IsBad};
ghost use Rattle.template_compiler_code_shapes.specs.declared.StreamKind.{StreamKind};
ghost use Rattle.template_compiler_code_shapes.specs.Checked.{kind_in, stream_in};

use crate::Stop;
use crate::checked::Checked;
use crate::kind::kind_of;
use std::alloc::Global;
use template_compiler_code::Instructions;
use template_values_errors::{Error, ErrorKind};

/// Accepts a stream in which each place has one shape however it is reached, each reached instruction
/// is admissible with that shape, and at the end nothing is open and no operand is left, which is a
/// template's, or one value, which is an expression's. What is good as both, since no way leads to its end, is told as
/// a template's. The body of each macro that is made is checked so as well: it ends by its `Return`, with nothing left.
/// Takes one pass over the instructions, at each as long as the shape there is deep, and memory for two flags a place and
/// for a shape at each place to which an instruction may lead but the one before it.
///
/// # Errors
///
/// With the instructions: [`ErrorKind::BadStream`] for all other streams, and
/// [`ErrorKind::OutOfMemory`].
pub fn verify<'source>(
    alloc: Global,
    instructions: Instructions<'source>,
) -> Result<Checked<'source>, (Error, Instructions<'source>)>
    ensures good { IfOk result (λ checked. IsGood (kind_in checked) (code_in instructions.entry)) }
    ensures first { IfOk result (λ checked.
        IsGood StreamKind.Template (code_in instructions.entry) → kind_in checked ≡ StreamKind.Template) }
    ensures accepted { IfOk result (λ checked. stream_in checked ≡ instructions.entry) }
    ensures bad { IfErr result (λ back. back.0 ≡ ErrorKind.BadStream ∷ [] → IsBad (code_in instructions.entry)) }
    ensures refused { IfErr result (λ back. (back.0 ≡ ErrorKind.BadStream ∷ []) ⊎ (back.0 ≡ ErrorKind.OutOfMemory ∷ [])) }
    ensures unchanged { IfErr result (λ back. back.1 ≡ instructions.entry) }
{
    match kind_of(alloc, &instructions) {
        Ok(kind) => Ok(Checked { instructions, kind }),
        Err(Stop::Bad) => Err((Error::new(ErrorKind::BadStream), instructions)),
        Err(Stop::Memory) => Err((Error::new(ErrorKind::OutOfMemory), instructions)),
    }
}
