//! The operators of expressions on values, by their kinds, and the containers that are built of values.
#![tactic(auto)]

mod containers;
mod operators;

pub use containers::{make_list, make_map, make_tuple};
pub use operators::{
    compare, invert, negate, number_made, operate, operate_on_numbers, operate_owned, truth_made,
    truth_of,
};
pub use template_values_forms::{NoRecords, Records};
