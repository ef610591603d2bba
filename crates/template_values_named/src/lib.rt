//! Values under names.
//!
//! The keyword arguments of a call.
#![tactic(auto)]

mod kwargs;
mod parts;
mod values;

pub use kwargs::Kwargs;
pub use values::NamedValues;
