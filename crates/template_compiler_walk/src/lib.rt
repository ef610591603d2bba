//! Definitions and their laws: what the walk of a tree does, with its prices, and which trees are constants.
#![tactic(auto)]

ghost use Rattle.template_compiler_walk.specs.Laws.{MacrosRise, RoundsRise, WalksRise};

mod numbers;

pub use numbers::{loops_find_their_rounds, macros_find_their_bodies};

/// Under a greater bound on rounds a template does what it does under a smaller one, as far as that
/// goes.
pub fn walks_rise()
    ensures { WalksRise }
{}

/// So does the body of a macro, over its arguments.
pub fn macros_rise()
    ensures { MacrosRise }
{}

/// And so do the rounds of a loop that is called again.
pub fn rounds_rise()
    ensures { RoundsRise }
{}
