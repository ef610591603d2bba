//! The trees of nodes, from the parts that they hold; and the descent along an expression's left chain.
//!
//! The bodies of statements, and the walk along the statements of a tree.
#![tactic(auto)]

mod bodies;
mod nodes;
mod picking;
mod samples;
mod spines;

pub use nodes::left;
pub use picking::{Picks, pick_among, pick_of};
pub use samples::{difference, one_entry};
pub use spines::spine;
