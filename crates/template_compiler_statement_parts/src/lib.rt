//! What statements are read from beside expressions: the ends of tags, words, names, targets, and imported names; and how lists grow. Each
//! function takes the tokens of what it reads off the stream. Where it refuses, nothing is said of the tokens that are
//! left.
//!
//! Values, targets with values, and arguments that are declared: what statements are made of, beside expressions and bodies.
//!
//! ```text
//! values      = expr { "," expr }
//! assignments = [ assignment { "," assignment } ]
//! assignment  = target "=" expr
//! loop_filter = [ "if" expr ]
//! parameters  = [ parameter { "," parameter } ] ")"
//! parameter   = name [ "=" expr ]
//! ```
//!
//! | What | Read by | What comes of it |
//! |---|---|---|
//! | `total + 1`; `a, b` | [`read_values`] | the value itself; several are a tuple |
//! | `a = 1, (b, c) = pair` | [`read_assignments`] | targets with their values, in their order |
//! | `if item.visible` | [`read_loop_filter`] | the condition, or none where no `if` stands next |
//! | `(row, index=0)` | [`read_optional_parameters`] | the arguments and the defaults of the last of them; none where no `(` stands next |
//! | `row, index=0)` | [`read_deeper_parameters`] | the same behind the `(`, one nesting level deeper |
//!
//! No comma may stand behind the last of them, and behind an argument with a default each has one.
#![tactic(auto)]

mod ends;
mod expressions;
mod growth;
mod imports;
mod names;
mod parameters;
mod targets;
mod values;
mod words;

pub use ends::{
    expect_assign, expect_block_end, expect_paren_end, expect_print_end, expect_tag,
    expect_tag_end, expect_word,
};
pub use expressions::ReadsExpressions;
pub use growth::put;
pub use imports::read_imports;
pub use names::{is_reserved, read_stored};
pub use parameters::{Parameters, read_deeper_parameters, read_optional_parameters};
pub use targets::{read_more_targets, read_target, read_targets};
pub use values::{read_assignments, read_loop_filter, read_values};
pub use words::{begins_tag, begins_values, pass_context, read_flag, read_missing, tag_word};
