//! The generator of instructions: they are added one by one, and the jumps of blocks are told where they lead when these
//! are closed. And the laws that what it gives for a tree is accepted by the check of streams.
#![tactic(auto)]

ghost use Rattle.template_compiler_generator.specs.Laws.{IfGenerates, ElseGenerates, ChoiceGenerates, LoopGenerates};

mod alone;
mod blocks;
mod call_numbers;
mod certificates;
mod generator;
mod numbers;
mod verified;

pub use call_numbers::numbers_run_alike;
pub use certificates::{
    expressions_are_certified, expressions_go_on, expressions_perform_anywhere,
    statements_perform_anywhere, templates_are_certified, templates_go_on,
};
pub use generator::CodeGenerator;
pub use numbers::number_names;
pub use verified::{
    expressions_are_accepted, templates_are_accepted, verified_expression, verified_template,
};

/// What the calls of a block generate around pieces of code is the code of conditions, of `and` and `or`, and of loops.
pub fn blocks_generate()
    ensures conditions { IfGenerates }
    ensures branches { ElseGenerates }
    ensures choices { ChoiceGenerates }
    ensures loops { LoopGenerates }
{}
