//! The names that a template uses: their definitions, sets of names, and the state of a walk that finds them.
#![tactic(auto)]

ghost use Rattle.template_compiler_names.specs.Enclosed.{EnclosesUsed};

mod dotted;
mod owned;
mod state;

pub use dotted::go_left;
pub use owned::{add_each, add_name, add_text};
pub use state::Names;

/// The names that are listed for a macro are those that its arguments' defaults or its body use.
pub fn encloses_used()
    ensures { EnclosesUsed }
{}
