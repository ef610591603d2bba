//! The builtin filters that put items in order: `sort`, `unique`, `min`, `max`, `dictsort` and `groupby`.
#![tactic(auto)]

mod alike;
mod attributes;
mod filter;
mod groups;
mod keyed;
mod keys;
mod ordering;
mod pairs;

pub use filter::SortingFilter;
