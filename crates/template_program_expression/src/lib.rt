//! The text of an expression, evaluated in an environment over a context; its value is written on a line.
#![tactic(auto)]

mod evaluating;
mod telling;

pub use evaluating::evaluate;
