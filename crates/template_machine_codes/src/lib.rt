//! Definitions and their law: what code means under the surroundings of a machine, which is what its tree means.
#![tactic(auto)]

ghost use Rattle.template_machine_codes.specs.Laws.{CodeMeansExpression, CodeMeansTree, CodesMeanKeys};

mod streams;

pub use streams::{every_first_run_ends, every_stream_ends, every_stream_leaves};

/// A tree's meaning that is finished is its code's meaning under every bound that is great enough.
pub fn code_means_tree()
    ensures { CodeMeansTree }
{}

/// What a key of trees comes to, where it is finished, its code comes to under every bound that is great enough.
pub fn codes_mean_keys()
    ensures { CodesMeanKeys }
{}

/// An expression's meaning that is finished is its code's meaning under every bound that is great enough.
pub fn code_means_expression()
    ensures { CodeMeansExpression }
{}
