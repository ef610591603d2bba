//! What is asked of the program.

/// What is to be written.
#[derive(Clone, Copy, Debug, PartialEq, Eq)]
pub enum Command {
    /// The text of the main template.
    Render,
    /// The names of a context that can matter to it, one a line.
    Names,
}
