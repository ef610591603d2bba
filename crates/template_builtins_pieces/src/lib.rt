//! The builtins that cut and pad texts: the filter `split`, and Python's methods of texts for it.
#![tactic(auto)]

mod affixes;
mod cuts;
mod filter;
mod joining;
mod lists;
mod method;
mod padding;
mod partitions;
mod reading;
mod replacing;
mod splitting;
mod words;

pub use filter::PieceFilter;
pub use method::PieceMethod;
