//! An output: a sink, and captures over it, of which the innermost takes what is written.
#![tactic(auto)]

mod capture;
mod output;

pub use output::Output;
