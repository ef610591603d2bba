//! What values print, and their JSON, written piece by piece: as it is, with references for HTML's markup, or between
//! quotes.
//!
//! The text that values print, and how it is escaped.
#![tactic(auto)]

mod concat;
mod escape;
mod html;
mod numbers;
mod pieces;
mod print;
mod printing;
mod runs;
mod serial;
mod truth;

pub use concat::{string_append, string_concat};
pub use escape::escape_to;
pub use html::{HTML_BLOCK, SHORT_TEXT, is_unmarked, put_html};
pub use numbers::format_number;
pub use pieces::{Markup, Quoting, push, push_bytes, push_quoted};
pub use print::print_outer;
pub use printing::print_to;
pub use serial::json_outer;
pub use template_values_forms::NoRecords;
pub use truth::is_true;
