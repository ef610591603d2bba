//! How a request ends.

use template_values_errors::Error;

/// How a request ends.
#[derive(Drop)]
pub enum Outcome {
    /// All is written.
    Done,
    /// The render, or the writing of names, ended with an error.
    Render(Error),
    /// The context was refused.
    Context(Error),
    /// A template was refused, no state id is left, the main one does not stand, or its names cannot be
    /// found.
    Template(Error),
}
