//! What a request is made of, part by part: whole inputs, that is the bytes or the text of a reader or a file, below a limit;
//! the context of a render; and how a request ends.
#![tactic(auto)]

mod command;
mod contexts;
mod faults;
mod files;
mod flushing;
mod outcome;
mod source;
mod status;
mod whole;

pub use command::Command;
pub use contexts::{context_for, read_context};
pub use faults::FileFault;
pub use files::{FileSystem, read_file, read_text_file};
pub use flushing::after_flush;
pub use outcome::Outcome;
pub use source::{ReadWrapper, Reader, Source};
pub use status::{CONTEXT, DONE, FILE, MEMORY, RENDER, TEMPLATE, WORDS, status_of};
pub use whole::{read_text, read_whole};
