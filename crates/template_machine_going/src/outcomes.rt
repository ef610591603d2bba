//! How instructions and runs of them come out: they go on, fault, run out of fuel, want memory or a sink that works, or
//! are lost; and the laws of all that.

ghost use Rattle.template_machine_going.specs.Comings.{ComesBehind, SpentComesOut, StepComesOut, StraysOn, StraysThere};

/// A run that is lost behind a going, or at an instruction that is paid, is lost from its first spot on.
pub fn strays_on<S>()
    ensures behind { StraysOn S }
    ensures there { StraysThere S }
{}

/// A run comes out from its first spot on as it does behind a going.
pub fn outcomes_follow<S, X>()
    ensures { ComesBehind S X }
{}

/// A run comes out as its instruction does, once that is paid; and runs out of fuel where it is not.
pub fn steps_come_out<S, X>()
    ensures paid { StepComesOut S X }
    ensures spent { SpentComesOut S X }
{}
