//! The builtin filters on decimals and sizes: what each makes of a value and of the arguments after it.
#![tactic(auto)]

mod carrying;
mod figures;
mod filter;
mod numbers;
mod numerals;
mod reading;
mod rounding;
mod sizes;
mod texts;

pub use filter::DecimalFilter;
pub use rounding::rounded_decimal;
