//! What values hold: items, attributes, slices, what a loop goes over, and whether a value is in another.
#![tactic(auto)]

mod items;
mod membership;
mod ordered;
mod records;
mod slices;

pub use items::{get_attr, get_item, items_of};
pub use membership::contains;
pub use ordered::Items;
pub use slices::slice;
