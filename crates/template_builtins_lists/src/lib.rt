//! The builtin filters on lists: what each makes of a value and of the arguments after it.
#![tactic(auto)]

mod chains;
mod counts;
mod filter;
mod joins;
mod lines;
mod lists;
mod zips;

pub use filter::ListFilter;
pub use lines::LINES_LIMIT;
