//! Sources to trees: `parse` reads a template, `parse_expr` an expression.
//!
//! The names of a template's blocks, and whether each stands once.
//!
//! All tokens of a source at once: of a template, or of an expression.
#![tactic(auto)]

mod distinct;
mod ends;
mod expression;
mod expression_tokens;
mod laws;
mod names;
mod parser;
mod prefixes;
mod reads;
mod refusals;
mod refused;
mod scoped;
mod source;
mod source_tokens;
mod template;

pub use expression::parse_expr;
pub use expression_tokens::read_expression_tokens;
pub use laws::{one_expression_fault, one_fault, one_placed_expression, one_placed_tree};
pub use parser::Parser;
pub use refusals::error_of;
pub use source::parse;
pub use source_tokens::read_tokens;
