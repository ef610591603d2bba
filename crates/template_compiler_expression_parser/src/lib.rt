//! The parser of expressions.
#![tactic(auto)]

mod expressions;
mod read;

pub use read::{read_condition, read_expression, read_filter, read_filter_chain};
