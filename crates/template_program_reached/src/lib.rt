//! Which of some templates a main one reaches by the names that stand as text literals in statements that load templates, and
//! which of the others can be read.
#![tactic(auto)]

mod loaded;
mod marks;
mod places;
mod sift;

pub use loaded::loaded_names;
pub use sift::readable;
