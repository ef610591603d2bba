//! The builtin tests of values: of their kinds, of letters and numbers, and comparisons.
#![tactic(auto)]

mod comparisons;
mod identity;
mod kinds;
mod leaves;
mod letters;
mod numbers;
mod parts;
mod tests;

pub use comparisons::Comparison;
pub use kinds::ValueKind;
pub use tests::ValueTest;
