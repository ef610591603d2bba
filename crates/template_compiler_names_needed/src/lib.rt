//! The names that a template takes of its context: those that it uses, those that one of its blocks, or of its recursive
//! loops, uses by itself, and those that it imports.
//!
//! The blocks of a template.
#![tactic(auto)]

mod imported;
mod needed;
mod nodes;
mod rounds;

pub use imported::imported_names;
pub use needed::{add_needed, find_needed};
pub use nodes::blocks;
