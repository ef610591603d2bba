//! Templates and expressions that were accepted: their code, which is that of the tree of their source.
//! And the templates that stand, each under its name.
#![tactic(auto)]

mod checked;
mod compiled;
mod config;
mod expression;
mod naming;
mod room;
mod streams;
mod templates;

pub use checked::{CheckedBlock, CheckedTemplate, check_template};
pub use compiled::{CompiledTemplate, one_refusal, one_tree, plain_text, trees_run};
pub use config::TemplateConfig;
pub use expression::{
    CompiledExpression, one_standalone_refusal, one_standalone_tree, standalone_trees_run,
};
pub use template_compiler_code::CompiledBlock;
pub use templates::CompiledTemplates;
