//! A stream of instructions that was accepted.

ghost use Rattle.std.specs.Prelude.{◌≡◌};
ghost use Rattle.template_compiler_code.specs.Listing.{code_in};
ghost use Rattle.template_compiler_code_shapes.specs.Streams.{IsGood};

use crate::StreamKind;
use template_compiler_code::Instructions;

/// Instructions that [`verify`](crate::verify) accepted: whatever a run of them is answered, none ever lacks an
/// operand, and at their end a template's leave nothing and an expression's leave its value.
#[derive(Drop)]
pub struct Checked<'source> {
    pub(crate) instructions: Instructions<'source>,
    pub(crate) kind: StreamKind,
    ghost good: { IsGood kind (code_in instructions) },
}

impl<'source> Checked<'source> {
    ghost use Rattle.template_compiler_code_shapes.specs.Checked.{kind_in, stream_in};

    /// The instructions.
    pub fn instructions(&self) -> &Instructions<'source>
        ensures same { result.now ≡ stream_in self.now }
        ensures good { IsGood (kind_in self.now) (code_in result.now) }
    {
        &self.instructions
    }

    /// What the instructions are of: they are run as that alone.
    pub fn kind(&self) -> StreamKind
        ensures same { result ≡ kind_in self.now }
        ensures good { IsGood result (code_in (stream_in self.now)) }
    {
        self.kind
    }
}
