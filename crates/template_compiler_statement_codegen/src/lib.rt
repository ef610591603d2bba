//! From statements to the instructions that do what they do.
#![tactic(auto)]

mod breaks;
mod imports;
mod iterables;
mod macros;
mod prints;
mod puts;
mod rounds;
mod statements;
mod targets;

pub use breaks::{breaks_lead, tell_breaks};
pub use statements::{children, compile_statements, compile_template};
pub use targets::{compile_assignment, compile_assignments};
pub use template_compiler_expression_codegen::compile_expr;
