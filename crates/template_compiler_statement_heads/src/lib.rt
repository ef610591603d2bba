//! Statements without a body, behind the words that begin them. Each function takes the nesting levels that are left, and
//! takes the tokens of what it reads off the stream. Where it refuses, nothing is said of the tokens that are left.
//!
//! The heads of loops and of conditions, of `with`, of `autoescape` and of filter blocks, behind the words that begin them and
//! up to the ends of their tags. Each function takes the nesting levels that are left, and takes the tokens of what it reads
//! off the stream. A node that is begun has no body yet. Where it refuses, nothing is said of the tokens that are left.
//!
//! Behind the word, with `name` for an identifier that is not reserved, a head is:
//!
//! ```text
//! for        = targets "in" condition [ "if" expr ] [ "recursive" ]
//! if, elif   = expr
//! with       = [ target "=" expr { "," target "=" expr } ]
//! autoescape = expr
//! filter     = name { "." name } [ arguments ] { "|" filter }
//! targets    = target { "," target }
//! target     = name | "(" targets ")"
//! ```
//!
//! | Head | Read by | What is begun |
//! |---|---|---|
//! | `for key, value in pairs if value recursive` | [`read_for`] | a loop: its target, a list where there are several or where there is a comma; what it goes over; the condition on the items; whether it is recursive |
//! | `if a`, `elif b` | [`read_branch`] | a condition: the expression |
//! | `with a = 1, b = 2` | [`read_with`] | targets with their values, in their order; no node as yet, since one is made with the body alone |
//! | `autoescape "html"` | [`read_auto_escape`] | how it is escaped: the expression |
//! | `filter upper` and more filters behind it | [`read_filter_block`] | the filters: the first one of no value, each other of the one before it |
//!
//! What a loop goes over is read as a condition, so that an `if` behind it is the condition on its items and not an
//! if-expression: `for a in b if c else d` is refused at its `else`.
//!
//! A node is begun in a box of its own, so that what reads the body hands on a pointer and not a tree. The spans of nodes begin at
//! the words of their tags; where they end is told with the body.
//!
//! Statements that declare a name, but for their bodies: `set`, blocks, macros and call blocks. Their heads, behind the words
//! that begin them and up to the ends of their tags, and what is made of a head and a body. Each function that reads takes
//! the nesting levels that are left, and takes the tokens of what it reads off the stream. Where it refuses, nothing is said
//! of the tokens that are left.
//!
//! Behind the word, with `name` for an identifier that is not reserved and `ident` for any, a head is:
//!
//! ```text
//! set        = paths "=" expr { "," expr } | path { "|" filter }
//! block      = ident [ "required" ]
//! macro      = name "(" [ parameters ] ")"
//! call       = [ "(" [ parameters ] ")" ] expr
//! paths      = path { "," path }
//! path       = name { "." name } | "(" paths ")"
//! parameters = parameter { "," parameter }
//! parameter  = name [ "=" expr ]
//! ```
//!
//! | Head | Read by | What it is |
//! |---|---|---|
//! | `set a, b = pair` | [`read_set`] | a whole statement: targets and the value |
//! | `set title` and filters behind it | [`read_set`] | the beginning of a set block: its target and its filters |
//! | `block title required` | [`read_block`] | the name, and whether it is required; refused in a macro |
//! | `macro field(name, kind="text")` | [`read_macro`] | the name, the arguments, and the defaults of the last of them |
//! | `call(row) table(rows)` | [`read_call`] | the arguments of the body, and the call, which an expression has to be |
//!
//! Which of the two a `set` is shows behind its first target: a comma or a `=` goes on with values, all else is a block.
//!
//! What is made of a head and a body: [`read_block_end`] reads the end of a block too, which may have the block's name again, and
//! refuses a required block whose body is not blank; [`macro_block`] and [`call_block`] end with tags that were read before. A
//! call block holds its body as the macro `caller`.
//!
//! Want of memory drops what was read so far.
#![tactic(auto)]

mod block_heads;
mod body_heads;
mod loop_heads;
mod loops;
mod macros;
mod sets;
mod templates;
mod values;

pub use block_heads::{BlockHead, read_block, read_block_end};
pub use body_heads::{read_auto_escape, read_branch, read_filter_block, read_with};
pub use loop_heads::read_for;
pub use loops::{read_break, read_continue};
pub use macros::{CallHead, MacroHead, call_block, macro_block, read_call, read_macro};
pub use sets::{SetHead, read_set};
pub use templates::{read_extends, read_from, read_import, read_include};
pub use values::{read_do, read_print};
