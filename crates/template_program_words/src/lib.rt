//! The words of the command line, as `clap` reads them.
#![tactic(auto)]

mod choices;
mod definitions;
mod escapes;
mod faults;
mod floats;
mod found;
mod modes;
mod options;
mod reading;
mod shared_options;
mod syntax;
mod syntax_options;
mod value_options;
mod words;

pub use definitions::{Definition, split_definition};
pub use escapes::EscapeWord;
pub use faults::WordsFault;
pub use reading::read_words;
pub use syntax::SyntaxWords;
pub use words::{CheckWords, NamesWords, RenderWords, Words};
