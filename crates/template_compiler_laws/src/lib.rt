//! Laws of what is read: every tree has a walk, and how much code a source has at most. The functions do nothing: each stands
//! for the law in its contract.
#![tactic(auto)]

ghost use Rattle.template_compiler_laws.specs.Bounds.{TemplatesAreBounded, BlocksAreBounded, ExpressionsAreBounded, ShortTextsFit};

mod runnable;

pub use runnable::{expressions_run, templates_run};

/// A law: the code of a template, of one of its blocks, or of an expression alone, has at most 201 instructions for each byte
/// of its source, and 201 more. A source of fewer than 2^24 bytes so has fewer than 2^32 instructions.
pub fn code_is_bounded()
    ensures templates { TemplatesAreBounded }
    ensures blocks { BlocksAreBounded }
    ensures expressions { ExpressionsAreBounded }
    ensures short { ShortTextsFit }
{}
