//! What the builtin filters, tests and methods read: their arguments by place and by keyword, the printed forms, items and truth of
//! values under a behaviour of undefined values, and how they make texts, safe or plain.
#![tactic(auto)]

mod answers;
mod arguments;
mod parts;
mod texts;

pub use answers::{refusal, stated};
pub use arguments::{Arguments, whole};
pub use parts::{PrintedForm, is_half_strict, is_loud, is_strict, items_of, printed, truth_of};
pub use texts::{is_html, is_safe, makes_safe, push_piece, text_made};
