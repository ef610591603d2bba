//! From expressions to the instructions that give their values.
#![tactic(auto)]

mod calls;
mod chains;
mod coded;
mod expressions;
mod filters;
mod leaves;
mod operators;
mod stretches;
mod whole;

pub use calls::{BegunCall, begin_call, end_call};
pub use coded::has_no_arguments;
pub use filters::compile_filters;
pub use whole::{compile_call, compile_expr, fold_expr};
