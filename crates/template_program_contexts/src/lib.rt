//! The context of a render from several documents, JSON or TOML, with definitions and values over them.
#![tactic(auto)]

mod contexts;
mod documents;
mod laws;
mod numbers;
mod spelled;
mod texts;
mod toml_tables;
mod values;
mod whole;

pub use contexts::context_with;
pub use documents::{Document, Form};
pub use laws::context_laws;
pub use texts::is_json;
