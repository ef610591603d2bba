//! What kind of stream instructions are.

ghost use Rattle.std.specs.Prelude.{◌≡◌, Some, IfOk, IfSome, IsNone, IsSomeAnd, IsErrOf, option_map};
ghost use Rattle.template_compiler_code.specs.Listing.{code_in};
ghost use Rattle.template_compiler_code_shapes.specs.Outlines.{shape_of};
ghost use Rattle.template_compiler_code_shapes.specs.Passes.{IsBad};
ghost use Rattle.template_compiler_code_shapes.specs.Shapes.{Shape};
ghost use Rattle.template_compiler_code_shapes.specs.Streams.{IsGood, end_of};
ghost use Rattle.template_compiler_code_shapes.specs.declared.StreamKind.{StreamKind};

use crate::{Outline, Stop, StreamKind, shape_at_end};
use std::alloc::Global;
use template_compiler_code::Instructions;

/// What kind of stream the instructions are, by the shape at their end.
pub(crate) fn kind_of(alloc: Global, code: &Instructions<'_>) -> Result<StreamKind, Stop>
    ensures good { IfOk result (λ kind. IsGood kind (code_in code.now)) }
    ensures first { IfOk result (λ kind. IsGood StreamKind.Template (code_in code.now) → kind ≡ StreamKind.Template) }
    ensures bad { IsErrOf result Stop.Bad → IsBad (code_in code.now) }
{
    let hand = shape_at_end(alloc, code)?;
    match kind_at_end(alloc, hand) {
        Some(kind) => Ok(kind),
        None => Err(Stop::Bad),
    }
}

// What kind of stream ends with a shape; where none reaches the end, a template's.
fn kind_at_end(alloc: Global, hand: Option<Outline>) -> Option<StreamKind>
    ensures kind { IfSome result (λ kind. (s : Shape) → option_map shape_of hand ≡ Some s → s ≡ end_of kind) }
    ensures expression { IfSome result (λ kind. kind ≡ StreamKind.Expression → option_map shape_of hand ≡ Some (end_of kind)) }
    ensures none { IsNone result → IsSomeAnd (option_map shape_of hand) (λ s. (kind : StreamKind) → s ≡ end_of kind → ⊥) }
{
    match hand {
        Some(shape) => shape.end_kind(alloc),
        None => Some(StreamKind::Template),
    }
}
