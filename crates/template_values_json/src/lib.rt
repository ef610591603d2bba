//! Values from JSON, as `serde_json` reads it.
//!
//! Contexts from JSON: numbers that are no whole ones are refused, or texts as they are spelled; and where a document is refused.
#![tactic(auto)]

mod contexts;
mod direct;
mod error;
mod leaves;
mod likeness;
mod members;
mod names;
mod numbers;
mod paths;
mod places;
mod spelled;
mod spelled_numbers;
mod values;

pub use contexts::{Floats, context_from_json_with};
pub use error::ContextError;
pub use leaves::value_of_leaf;
pub use members::{context_from_json, entries_from_json};
pub use numbers::whole_in;
