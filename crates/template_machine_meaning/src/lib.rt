//! Definitions and their laws: what surrounds a running template, how it answers the template's events, what a template
//! means, what every run keeps, and what it takes of its context.
#![tactic(auto)]

ghost use Rattle.template_machine_meaning.specs.Laws.{BoundsExtend, EveryKeyEnds, EveryRunEnds, KeysExtend, MeaningsExtend, OneMeaning};
ghost use Rattle.template_machine_meaning.specs.Laws.{EvaluationsNeedNoBound, EveryEvaluationGives, EveryExpressionGives};

mod contexts;
mod kept;

pub use contexts::{expression_isolation, isolation};
pub use kept::{expression_faults_are_meant, faults_are_meant, runs_keep};

/// Under a greater bound a process that goes further gives a run that extends.
pub fn bounds_extend()
    ensures { BoundsExtend }
{}

/// A meaning that is finished under a bound is the same under every greater one, and what is not
/// finished has begun there.
pub fn meanings_extend()
    ensures { MeaningsExtend }
{}

/// What each key comes to under a bound extends likewise.
pub fn keys_extend()
    ensures { KeysExtend }
{}

/// Every run of templates whose constructs have a walk ends: under some bound it is finished.
pub fn every_run_ends()
    ensures { EveryRunEnds }
{}

/// What each key comes to that finds something ends, where a template is rendered or none is.
pub fn every_key_ends()
    ensures { EveryKeyEnds }
{}

/// A run that is finished under two bounds is the same under both.
pub fn one_meaning()
    ensures { OneMeaning }
{}

/// Every expression whose constructs have a walk comes to its value, or to a fault, where nothing that runs can be called.
pub fn every_evaluation_gives()
    ensures { EveryEvaluationGives }
{}

/// So it does over a context, where its value is handed out.
pub fn every_expression_gives()
    ensures { EveryExpressionGives }
{}

/// An expression does the same under every bound, where nothing that runs can be called.
pub fn evaluations_need_no_bound()
    ensures { EvaluationsNeedNoBound }
{}
