//! The builtin filters on the layout of texts: what each makes of a value and of the arguments after it.
#![tactic(auto)]

mod centers;
mod characters;
mod filter;
mod fronts;
mod pieces;
mod putting;
mod reading;
mod references;
mod spacing;
mod tags;
mod truncating;
mod words;
mod wordwrap;
mod wrapping;

pub use filter::LayoutFilter;
