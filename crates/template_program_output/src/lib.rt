//! Where the program writes: outputs that may tell what they answered, a buffer in front of one, and fault lines.
#![tactic(auto)]

mod buffered;
mod lines;
mod output;
mod whole;

pub use buffered::Buffered;
pub use lines::{write_error, write_fault};
pub use output::Output;
pub use whole::{write_flushed, write_whole};
