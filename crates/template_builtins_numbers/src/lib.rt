//! The builtin filters on numbers and on any value: what each makes of a value and of the arguments after it.
#![tactic(auto)]

mod decimals;
mod filter;
mod numerals;
mod values;
mod wholes;

pub use filter::ValueFilter;
