//! The names in expressions and statements.
//!
//! The names that a template uses.
#![tactic(auto)]

mod expressions;
mod owned;
mod parts;
mod statements;
mod targets;
mod undeclared;

pub use expressions::{use_arguments, use_expression, use_optional};
pub use owned::{add_names, add_undeclared};
pub use statements::{use_macro, use_region, use_statement};
pub use targets::{assign, assign_target, bind_arguments, bind_imports, use_assignments};
pub use template_compiler_names::add_name;
pub use undeclared::{find_undeclared, first_segments};
