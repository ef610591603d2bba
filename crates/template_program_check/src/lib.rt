//! The check of templates: which of them are refused, and which names of filters, tests and functions nothing has.
#![tactic(auto)]

mod lines;
mod named;
mod refusals;
mod stored;
mod telling;
mod unknown;

pub use refusals::{Checked, check};
pub use telling::check_to;
pub use unknown::unknown_names;
