//! The comparisons of a chain, and its leaps, which are told their target at its end.
ghost use Rattle.std.specs.Prelude.{◌≡◌, ◌++◌, ◌∷◌, [], OnOk, IfOk, IfErr, length};
ghost use Rattle.template_compiler_code.specs.Code.{compare_and_preserve, jump_if_false_or_pop};
ghost use Rattle.template_compiler_code.specs.Listing.{code_in, TakesNoMore};
ghost use Rattle.template_compiler_codegen.specs.Expressions.{one};
ghost use Rattle.template_compiler_folding.specs.Folding.{comparison_folded};
ghost use Rattle.template_compiler_emission.specs.Puts.{Keeps, Puts, behind};
ghost use Rattle.template_compiler_expression_codegen.specs.Chains.{is_false, leapt, left_behind};

use crate::leaves::unless_refused;
use template_compiler_code::Instructions;
use template_compiler_emission::{Leap, comparison_instruction, land, load_copy, push, push_leap};
use template_compiler_folding::fold_comparison;
use template_compiler_tree::CompareOpKind;
use template_values_core::Value;
use template_values_errors::ErrorKind;

// What is constant of a comparison: its truth, and behind it the left side of the next one.
#[derive(Drop)]
pub(crate) struct Link {
    pub(crate) holds: Option<Value>,
    pub(crate) left: Option<Value>,
}

// What is constant of a chain, and the places of its leaps.
#[derive(Drop)]
pub(crate) struct Linked {
    pub(crate) holds: Option<Value>,
    pub(crate) leaps: Vec<u32>,
}

// A comparison behind its right side, which is loaded first where it was held back.
#[inline(always)]
pub(crate) fn end_link<'source>(
    code: &mut Instructions<'source>,
    left: &Option<Value>,
    op: CompareOpKind,
    right: Option<Value>,
) -> Result<Link, ErrorKind>
    ensures holds { IfOk result (λ l. l.holds ≡ comparison_folded op left.now right) }
    ensures left { IfOk result (λ l. l.left ≡ left_behind l.holds right) }
    ensures put { OnOk result (Puts (behind right (one (compare_and_preserve op))) code.old code.new) }
    ensures refused { IfErr result (λ kind. TakesNoMore (code_in code.new) (kind ∷ [])) }
{
    load_copy(code, &right, None)?;
    push(code, comparison_instruction(op), None)?;
    match unless_refused(fold_comparison(op, left, &right))? {
        Some(holds) => Ok(Link {
            holds: Some(holds),
            left: right,
        }),
        None => Ok(Link {
            holds: None,
            left: None,
        }),
    }
}

// A comparison that is constant and false: the chain ends behind it.
pub(crate) fn is_false(holds: &Option<Value>) -> bool
    ensures { result ≡ is_false holds.now }
{
    match holds {
        Some(holds) => !holds.is_true(),
        None => false,
    }
}

// Puts a leap whose target is told later, and keeps its place.
pub(crate) fn put_leap<'source>(
    code: &mut Instructions<'source>,
    leaps: &mut Vec<u32>,
) -> Result<(), ErrorKind>
    ensures put { OnOk result (Puts (one (jump_if_false_or_pop 0)) code.old code.new) }
    ensures kept { OnOk result (leaps.new.items ≡ leaps.old.items ++ length (code_in code.old) ∷ []) }
    ensures refused { IfErr result (λ kind. TakesNoMore (code_in code.new) (kind ∷ [])) }
{
    let place = push_leap(code, Leap::IfFalseOrPop, None)?;
    unless_refused(leaps.push(place))
}

// Tells the leaps at the places where they lead: behind the last instruction.
pub(crate) fn tell_leaps<'source>(code: &mut Instructions<'source>, leaps: Vec<u32>)
    ensures told { code_in code.new ≡ leapt (length (code_in code.old)) leaps.items (code_in code.old) }
    ensures same { Keeps code.old code.new }
{
    let mut left = leaps;
    while let Some(place) = left.pop() {
        land(code, place, Leap::IfFalseOrPop);
    }
}
