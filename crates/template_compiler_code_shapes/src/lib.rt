//! The shapes that a run of a stream of instructions takes, and which streams are good. The functions
//! do nothing: each stands for the law in its contract.
#![tactic(auto)]

ghost use Rattle.template_compiler_code_shapes.specs.Laws.{CertifiedIsGood, GoodEndsWell, GoodGoesOn};
ghost use Rattle.template_compiler_code_shapes.specs.Rounds.{GoodRoundsStay};

mod beside;
mod checked;
mod desk;
mod kind;
mod outline;
mod pass;
mod verifying;
mod ways;

pub use checked::Checked;
pub use desk::Stop;
pub use outline::Outline;
pub use pass::shape_at_end;
pub use verifying::verify;

/// Which of the two kinds a stream is.
#[derive(Clone, Copy, Debug, PartialEq, Eq)]
pub enum StreamKind {
    /// A template's: it leaves no operand.
    Template,
    /// An expression's: it leaves one value.
    Expression,
}

/// A stream with a certificate is good.
pub fn certified_is_good()
    ensures { CertifiedIsGood }
{}

/// A good stream is never stuck, and ends well: from any place that is reached with a shape, whatever is
/// answered, no instruction lacks an operand, and at the end no operand is left, or an expression's
/// value; and none at the end of a macro's body.
pub fn good_ends_well()
    ensures { GoodEndsWell }
{}

/// A good stream goes on: it performs the asks that follow on so many answers, whatever they are, within one more than
/// them times one more than its instructions.
pub fn good_goes_on()
    ensures { GoodGoesOn }
{}

/// The rounds of a recursive loop that a good stream opens are never stuck where they are called again, over no operand of
/// the run that opened it, and don't run past the code, until the loop's frame is closed.
pub fn good_rounds_stay()
    ensures { GoodRoundsStay }
{}
