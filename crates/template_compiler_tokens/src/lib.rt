//! The tokens of a template's text: their type, what a token is, where tokens stand, the trait by which parsers read them, and
//! how they are read from left to right: one reading behind another, repetitions, and which faults are answered.
//!
//! Places in a source: their lines, columns and offsets, and the span between two; what is asked of its bytes, whatever its syntax
//! is; and of the starts that a syntax names.
#![tactic(auto)]

mod bytes;
mod counts;
mod laws;
mod place;
mod sign;
mod starts;
mod stretch;
mod token;
mod tokens;

pub use bytes::{behind_white_space, goes_before, is_low_surrogate, last_between};
pub use laws::one_token;
pub use place::Place;
pub use sign::{Sign, sign_of};
pub use starts::are_apart;
pub use stretch::{Stretch, next_span, span_in};
pub use token::Token;
pub use tokens::Tokens;
