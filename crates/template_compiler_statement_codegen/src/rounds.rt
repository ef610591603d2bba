//! The loop around statements, whose ways out are told while their code is put.
ghost use Rattle.std.specs.Prelude.{◌≡◌, [], ◌∷◌, OnOk, IfErr};
ghost use Rattle.template_compiler_tree.specs.Tree.{break_loop, continue_loop};
ghost use Rattle.template_compiler_code.specs.View.{code_of};
ghost use Rattle.template_compiler_code.specs.Listing.{code_in};
ghost use Rattle.template_compiler_codegen.specs.Statements.{statement_code};
ghost use Rattle.template_compiler_emission.specs.Puts.{Puts};
ghost use Rattle.template_compiler_statement_codegen.specs.Breaks.{breaks_of};
ghost use Rattle.template_compiler_statement_codegen.specs.Refusals.{Refuses};
ghost use Rattle.template_compiler_statement_codegen.specs.Rounds.{Lowers, closed_by, closing_code, ways_of};

use crate::puts::{append, put, reserve};
use std::alloc::Global;
use template_compiler_code::{Instruction, Instructions};
use template_compiler_emission::Leap;
use template_compiler_tree::Span;
use template_values_errors::ErrorKind;

// What stands open around statements inside a loop; or the text that a capture ends with.
#[derive(Clone, Copy)]
pub(crate) enum Closing {
    Frame,
    AutoEscape,
    Capture,
    Text,
}

impl Closing {
    // What closes it.
    pub(crate) fn instruction<'source>(self) -> Instruction<'source>
        ensures { code_of result ≡ closing_code self }
    {
        match self {
            Closing::Frame => Instruction::PopFrame,
            Closing::AutoEscape => Instruction::PopAutoEscape,
            Closing::Capture => Instruction::EndCapture,
            Closing::Text => Instruction::DiscardTop,
        }
    }
}

// The loop around statements: the place where it asks for its next item, what stands open inside it, the
// outermost first, and the places of the jumps of its breaks. Outside of loops nothing leads to any of them.
#[derive(Drop)]
pub(crate) struct Round {
    pub asks: u32,
    pub closings: Vec<Closing>,
    pub breaks: Vec<u32>,
}

impl Round {
    // Nothing is open yet.
    pub(crate) fn new(alloc: Global, asks: u32) -> Round
        ensures asks { result.asks ≡ asks }
        ensures closings { result.closings.items ≡ [] }
        ensures breaks { result.breaks.items ≡ [] }
    {
        Round {
            asks,
            closings: Vec::new(alloc),
            breaks: Vec::new(alloc),
        }
    }
}

// Puts what closes all that is open, the innermost first.
fn close_all<'source>(
    code: &mut Instructions<'source>,
    closings: &[Closing],
    span: Span,
) -> Result<(), ErrorKind>
    ensures put { OnOk result (Puts (λ place. closed_by closings.now) code.old code.new) }
    ensures refused { IfErr result (Refuses (code_in code.new)) }
{
    let mut left = closings.len();
    while left > 0 {
        left -= 1;
        let closing = closings[left];
        put(code, closing.instruction(), Some(span))?;
    }
    Ok(())
}

// Puts what leaves the loop: its jump is told later where the loop ends.
#[inline(never)]
pub(crate) fn put_break<'source>(
    code: &mut Instructions<'source>,
    round: &mut Round,
    span: &Span,
) -> Result<(), ErrorKind>
    ensures lowered { OnOk result (Lowers (statement_code (ways_of round.old) break_loop) (breaks_of (ways_of round.old) break_loop)
        code.old code.new round.old round.new) }
    ensures refused { IfErr result (Refuses (code_in code.new)) }
{
    close_all(code, &round.closings, *span)?;
    let place = reserve(code, Leap::Always, Some(*span))?;
    append(&mut round.breaks, place)
}

// Puts what goes on with the loop's next item.
#[inline(never)]
pub(crate) fn put_continue<'source>(
    code: &mut Instructions<'source>,
    round: &Round,
    span: &Span,
) -> Result<(), ErrorKind>
    ensures put { OnOk result (Puts (statement_code (ways_of round.now) continue_loop) code.old code.new) }
    ensures refused { IfErr result (Refuses (code_in code.new)) }
{
    close_all(code, &round.closings, *span)?;
    put(code, Instruction::Jump(round.asks), Some(*span))
}
