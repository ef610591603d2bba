//! The names that a macro encloses, and those that a unit of a template uses.
#![tactic(auto)]

mod begin;
mod closures;
mod listing;
mod parts;

pub use closures::{MacroUses, find_macro_closure, find_macro_uses};
pub use listing::{units, units_among};
pub use parts::{Unit, use_loop_rounds, used_names};
