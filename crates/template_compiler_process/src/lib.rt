//! What running a template does, as a process that takes priced steps and asks its surroundings, what
//! comes of it under surroundings that answer, and the laws of both. The functions do nothing: each
//! stands for the law in its contract.
#![tactic(auto)]

ghost use Rattle.template_compiler_process.specs.Approximants.{RunsFurther};
ghost use Rattle.template_compiler_process.specs.Fuel.{CutAlike, EnoughIsEnough, FuelAddsUp, WritesBeginning};
ghost use Rattle.template_compiler_process.specs.Laws.{BelowItself, BelowFollows, DrivenAlike, DrivenWhole, RunAlike, RunWhole};

/// A process does what it does itself, and what follows a follower follows the first.
pub fn below_is_an_order()
    ensures itself { BelowItself }
    ensures follows { BelowFollows }
{}

/// A process that does what another does, as far as that goes, is driven like it where the other's
/// bound does not run out.
pub fn driven_alike()
    ensures { DrivenAlike }
{}

/// A whole process is driven to a proper end.
pub fn driven_whole()
    ensures { DrivenWhole }
{}

/// A process that does what another does, as far as that goes, runs like it under surroundings with
/// states `S`, where the other's bound does not run out.
pub fn run_alike<S>()
    ensures { RunAlike S }
{}

/// A whole process runs to a proper end under surroundings with states `S`.
pub fn run_whole<S>()
    ensures { RunWhole S }
{}

/// A process that goes further, under surroundings with states `S` that reply more, gives a run that
/// extends: what was finished stays as it is, and what was not has begun.
pub fn runs_further<S>()
    ensures { RunsFurther S }
{}

/// A fuel that lets a run through changes nothing, and neither does a greater one.
pub fn enough_is_enough<S>()
    ensures { EnoughIsEnough S }
{}

/// What a run consumes of a fuel and what remains of it are the fuel that was set.
pub fn fuel_adds_up<S>()
    ensures { FuelAddsUp S }
{}

/// Under a fuel a run writes a beginning of what it writes without.
pub fn writes_beginning<S>()
    ensures { WritesBeginning S }
{}

/// Runs that leave the same items and come to the same end do so under every fuel.
pub fn cut_alike<S, T>()
    ensures { CutAlike S T }
{}
