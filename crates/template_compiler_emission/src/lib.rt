//! Instructions that are put behind others, and jumps whose targets are told once they are known.
#![tactic(auto)]

mod leaps;
mod operators;

pub use leaps::{Leap, land, load, load_copy, push, push_leap};
pub use operators::{comparison_instruction, leap_of, operator_instruction, unary_instruction};
