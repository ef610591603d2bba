//! The laws of histories: what stands under the names of an environment after any list of additions, refusals, removals
//! and clearings. They hold of environments `E` and sources `S` of any kind, of which each change tells what the contract
//! of its call tells. The functions do nothing: each stands for the law in its contract; save the ones that put what is
//! given under a name, and that add the names which all use that stand.
#![tactic(auto)]

ghost use Rattle.template_machine_environment_histories.specs.Laws.{AgreeingComeToTheSame, LastDecides, OnlyStandingMatters, RefusedMakeNoDifference, TouchesOrNot, UntouchedStays};

mod naming;
mod standing;

pub use naming::{UsesNames, add_names_of_all};
pub use standing::put_under;

/// What stands under a name after any changes is what the last one that touches it says: the source that was added, or
/// none where it was removed or all were; or what stood there before, where none touches it. There is no third case.
pub fn last_change_decides<E, S>()
    ensures last { LastDecides E S }
    ensures untouched { UntouchedStays E S }
    ensures one_of_them { TouchesOrNot S }
{}

/// Refused additions make no difference.
pub fn refused_make_no_difference<E, S>()
    ensures { RefusedMakeNoDifference E S }
{}

/// Histories that agree on each name come to environments where the same stands under each name.
pub fn agreeing_come_to_the_same<E, S>()
    ensures { AgreeingComeToTheSame E S }
{}

/// What stands is all that matters to a history: one that leads from an environment leads from every other where the same
/// stands. So calls between its changes that set something else make no difference.
pub fn only_what_stands_matters<E, S>()
    ensures { OnlyStandingMatters E S }
{}
