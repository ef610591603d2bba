//! What is known of a tree before a render runs, from what is known of its parts.
#![tactic(auto)]

mod constants;
mod containers;
mod literal_values;
mod operators;

pub use constants::as_const;
pub use containers::{fold_list, fold_map, fold_tuple};
pub use operators::{fold_binary, fold_comparison, fold_unary, goes_on, joins};
