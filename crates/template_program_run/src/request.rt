//! What is asked of the program.

use template_program_parts::Command;
use template_values_errors::UndefinedBehavior;

/// What is asked of the program.
#[derive(Debug, Drop)]
pub struct Request {
    /// The name of the main template.
    pub main: String,
    /// The definitions, as names with their texts.
    pub texts: Vec<(String, String)>,
    /// The fuel of a render, if one is set.
    pub fuel: Option<u64>,
    /// How deep a render may be: 500 at most.
    pub limit: usize,
    /// What may be done with undefined values.
    pub undefined: UndefinedBehavior,
    /// What is to be written.
    pub command: Command,
}
