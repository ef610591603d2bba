//! Instructions that are put behind others, and jumps whose targets are told later.
ghost use Rattle.std.specs.Prelude.{◌≡◌, [], ◌∷◌, OnOk, IfOk, IfErr, length};
ghost use Rattle.std.proofs.Math.ListN.{set};
ghost use Rattle.template_compiler_code.specs.Code.{load_const};
ghost use Rattle.template_compiler_code.specs.View.{code_of};
ghost use Rattle.template_compiler_code.specs.Listing.{code_in, TakesNoMore};
ghost use Rattle.template_compiler_codegen.specs.Expressions.{one};
ghost use Rattle.template_compiler_emission.specs.Leaps.{leap_code};
ghost use Rattle.template_compiler_emission.specs.Puts.{Keeps, Puts, held};

use template_compiler_code::{Instruction, Instructions};
use template_compiler_tree::Span;
use template_values_core::Value;
use template_values_errors::ErrorKind;

/// A jump, whose target may be told later.
#[derive(Clone, Copy, Debug, PartialEq, Eq)]
pub enum Leap {
    /// Whatever is on top.
    Always,
    /// Where the value on top, which is taken, is false.
    IfFalse,
    /// Where the value on top is false; else it is taken.
    IfFalseOrPop,
    /// Where the value on top is true; else it is taken.
    IfTrueOrPop,
    /// Where the loop has no further item.
    Iterate,
}

impl Leap {
    /// The jump to a place.
    pub fn to<'source>(self, target: u32) -> Instruction<'source>
        ensures { code_of result ≡ leap_code self target }
    {
        match self {
            Leap::Always => Instruction::Jump(target),
            Leap::IfFalse => Instruction::JumpIfFalse(target),
            Leap::IfFalseOrPop => Instruction::JumpIfFalseOrPop(target),
            Leap::IfTrueOrPop => Instruction::JumpIfTrueOrPop(target),
            Leap::Iterate => Instruction::Iterate(target),
        }
    }
}

// Puts one instruction behind the others, and answers its place. It comes from a span of the source, or else from
// where the one before it comes.
#[inline(always)]
fn push_from<'source>(
    code: &mut Instructions<'source>,
    instruction: Instruction<'source>,
    from: Option<&Span>,
) -> Result<u32, ErrorKind>
    ensures place { IfOk result (λ place. place ≡ length (code_in code.old)) }
    ensures put { OnOk result (Puts (one (code_of instruction.entry)) code.old code.new) }
    ensures refused { IfErr result (λ kind. TakesNoMore (code_in code.new) (kind ∷ [])) }
{
    match from {
        Some(span) => push_at(code, instruction, *span),
        None => code.push(instruction),
    }
}

// Puts one instruction behind the others, which comes from a span of the source, and answers its place.
#[inline(always)]
fn push_at<'source>(
    code: &mut Instructions<'source>,
    instruction: Instruction<'source>,
    span: Span,
) -> Result<u32, ErrorKind>
    ensures place { IfOk result (λ place. place ≡ length (code_in code.old)) }
    ensures put { OnOk result (Puts (one (code_of instruction.entry)) code.old code.new) }
    ensures refused { IfErr result (λ kind. TakesNoMore (code_in code.new) (kind ∷ [])) }
{
    code.push_with_span(instruction, span)
}

/// Puts one instruction behind the others. It comes from a span of the source, or else from where the one before it
/// comes.
///
/// # Errors
///
/// Those of [`Instructions::add`], of which the kind alone is told.
#[inline(always)]
pub fn push<'source>(
    code: &mut Instructions<'source>,
    instruction: Instruction<'source>,
    from: Option<&Span>,
) -> Result<(), ErrorKind>
    ensures put { OnOk result (Puts (one (code_of instruction.entry)) code.old code.new) }
    ensures refused { IfErr result (λ kind. TakesNoMore (code_in code.new) (kind ∷ [])) }
{
    push_from(code, instruction, from)?;
    Ok(())
}

/// Puts a jump behind the others whose target is told later, and answers its place. It comes from where [`push`] says.
///
/// # Errors
///
/// Those of [`push`].
#[inline(always)]
pub fn push_leap<'source>(
    code: &mut Instructions<'source>,
    leap: Leap,
    from: Option<&Span>,
) -> Result<u32, ErrorKind>
    ensures place { IfOk result (λ place. place ≡ length (code_in code.old)) }
    ensures put { OnOk result (Puts (one (leap_code leap 0)) code.old code.new) }
    ensures refused { IfErr result (λ kind. TakesNoMore (code_in code.new) (kind ∷ [])) }
{
    push_from(code, leap.to(0), from)
}

/// Tells the jump at a place its target: the place behind the last instruction. Where none stands, nothing
/// changes.
#[inline(always)]
pub fn land<'source>(code: &mut Instructions<'source>, place: u32, leap: Leap)
    ensures landed { code_in code.new ≡ set (code_in code.old) place (leap_code leap (length (code_in code.old))) }
    ensures same { Keeps code.old code.new }
{
    let target = code.len() as u32;
    code.replace(place, leap.to(target));
}

/// Puts the load of a constant behind the others, where there is one. It comes from where [`push`] says.
///
/// # Errors
///
/// Those of [`push`].
#[inline(always)]
pub fn load<'source>(
    code: &mut Instructions<'source>,
    constant: Option<Value>,
    from: Option<&Span>,
) -> Result<(), ErrorKind>
    ensures put { OnOk result (Puts (held constant) code.old code.new) }
    ensures refused { IfErr result (λ kind. TakesNoMore (code_in code.new) (kind ∷ [])) }
{
    match constant {
        Some(value) => load_value(code, value, from),
        None => Ok(()),
    }
}

// Puts the load of a constant behind the others.
#[inline(never)]
fn load_value<'source>(
    code: &mut Instructions<'source>,
    value: Value,
    from: Option<&Span>,
) -> Result<(), ErrorKind>
    ensures put { OnOk result (Puts (one (load_const value)) code.old code.new) }
    ensures refused { IfErr result (λ kind. TakesNoMore (code_in code.new) (kind ∷ [])) }
{
    push(code, Instruction::LoadConst(value), from)
}

/// Puts the load of a copy of a constant behind the others, where there is one. It comes from where [`push`] says.
///
/// # Errors
///
/// Those of [`push`].
#[inline(always)]
pub fn load_copy<'source>(
    code: &mut Instructions<'source>,
    constant: &Option<Value>,
    from: Option<&Span>,
) -> Result<(), ErrorKind>
    ensures put { OnOk result (Puts (held constant.now) code.old code.new) }
    ensures refused { IfErr result (λ kind. TakesNoMore (code_in code.new) (kind ∷ [])) }
{
    match constant {
        Some(value) => match value.copy() {
            Ok(copy) => load_value(code, copy, from),
            Err(_refused) => Err(ErrorKind::OutOfMemory),
        },
        None => Ok(()),
    }
}
