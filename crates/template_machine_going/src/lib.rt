//! Definitions and their laws: how far the machine has come in its code, how it stops, what one instruction does, how
//! instructions and runs of them come out, and what a bound on instructions leaves as it is; and what a call tells that stopped.
#![tactic(auto)]

ghost use Rattle.template_machine_going.specs.Laws.{ActsGo, FaultsOn, FaultsThere, GoesNowhere, GoesOn, RunsOutOn, RunsOutThere, SpentThere, WantsOn, WantsThere};

mod bounds;
mod fuel;
mod outcomes;
mod stop;
mod tracking;

pub use bounds::{beginnings_stay, ends_stay, uncut_stays};
pub use fuel::{charge, levels};
pub use outcomes::{outcomes_follow, steps_come_out, strays_on};
pub use stop::Stop;
pub use tracking::FuelTracker;

/// A machine that goes nowhere has gone, and goings follow one another.
pub fn goings_follow<S>()
    ensures nowhere { GoesNowhere S }
    ensures on { GoesOn S }
{}

/// An instruction that is paid and acts is a going.
pub fn acts_go<S>()
    ensures { ActsGo S }
{}

/// Where the machine stops behind a going, it stops from its first spot on.
pub fn stops_on<S>()
    ensures faults { FaultsOn S }
    ensures runs_out { RunsOutOn S }
    ensures wants { WantsOn S }
{}

/// Where an instruction is paid and stops, or is not paid, the machine stops.
pub fn stops_there<S>()
    ensures faults { FaultsThere S }
    ensures runs_out { RunsOutThere S }
    ensures wants { WantsThere S }
    ensures spent { SpentThere S }
{}
