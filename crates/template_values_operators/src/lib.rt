//! The operators of the template language that take numbers, and the sums and products of all values; what the other
//! operators on values share; and the definitions of all of them.
//!
//! The arithmetic of the template language's whole numbers.
#![tactic(auto)]

mod arithmetic;
pub mod growth;
pub mod kinds;
mod numbers;
mod products;
mod sums;

pub use arithmetic::{div, int_div, neg, pow, refusal, rem, sub};
pub use numbers::{difference, negation, power, product, quotient, remainder, sum};
pub use products::mul;
pub use sums::add;
