//! The builtin filter `format`: a text with directives after the manner of printf, and arguments that stand in their places.
#![tactic(auto)]

mod arguments;
mod digits;
mod directives;
mod filling;
mod filter;
mod fixed;
mod formats;
mod parts;
mod shown;

pub use filter::FormatFilter;
