//! What a machine does at instructions that only take and give operands, and where its run goes on.
#![tactic(auto)]

mod asides;
mod containers;
mod operands;
mod operators;
mod parts;
mod truths;
mod ways;

pub use asides::{Aside, Tested, operate_aside, test_aside};
pub use containers::{
    build_kwargs, build_list, build_map, build_tuple, merge_kwargs, unpack_list, unpack_lists,
};
pub use operands::{discard_top, dup_top, load_const, load_const_at_once, swap};
pub use operators::{compare_and_preserve, invert, is_undefined, negate, operate, operate_at_once};
pub use parts::{get_attr, get_attr_at_once, get_item, slice};
pub use truths::{
    jump, jump_if_false, jump_if_false_at_once, jump_if_false_or_pop, jump_if_false_or_pop_at_once,
    jump_if_true_or_pop, jump_if_true_or_pop_at_once, jump_if_value_false,
};
pub use ways::{AtOnce, Begun, Way, behind};
