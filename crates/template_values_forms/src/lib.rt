//! The texts that values print, their escapes, the numbers of JSON, what is known of records, and how values look into them.
//!
//! A value as it is once it has left the state that made its namespaces.
#![tactic(auto)]

mod freezing;
mod namespaces;
mod records;

pub use freezing::freeze;
pub use records::{LoopView, MacroView, NoRecords, Records};

/// The least whole number that is written as JSON.
pub const LEAST_JSON_NUMBER: i64 = i64::MIN;

/// The greatest whole number that is written as JSON.
pub const GREATEST_JSON_NUMBER: u64 = u64::MAX;
