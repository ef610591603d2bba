//! The tokens that the parsers read, with two of them to look at.
#![tactic(auto)]

mod refusal;
mod sign;
mod stream;

pub use refusal::{Fault, Refusal};
pub use sign::Level;
pub use stream::{First, TokenStream, until};
