//! The syntax of templates: their delimiters and line prefixes, and which white space beside segments goes.
//!
//! How a template's source is parted into data and segments.
#![tactic(auto)]

mod builder;
mod config;
mod edges;
mod laws;
mod places;
mod settings;
mod starts;
mod stripping;

pub use builder::SyntaxConfigBuilder;
pub use config::SyntaxConfig;
pub use edges::{Edge, Trim, comment_sign, start_sign};
pub use laws::{one_list_of_pieces, one_list_of_tokens, plain_text_is_its_own_data};
pub use places::{find_line_end, find_text, is_first_on_line, newline_len, stands_at};
pub use starts::{Known, Start, StartFinder};
pub use stripping::{data_between, data_start, data_text};

/// What begins at a start marker.
#[derive(Clone, Copy, Debug, PartialEq, Eq)]
pub enum StartMarker {
    /// A print.
    Variable,
    /// A block.
    Block,
    /// A comment.
    Comment,
    /// A statement that its line's prefix begins.
    LineStatement,
    /// A comment that its line's prefix begins.
    LineComment,
}
