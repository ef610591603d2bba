//! How renders, blocks and expressions come out, and the laws that lead there from a run of their code; and what runs it.
#![tactic(auto)]

ghost use Rattle.template_machine_renders.specs.Laws.{BlocksRender, EndsRender, ExpressionsEvaluate, StopsRender};

mod running;
mod streams;

pub use running::{run_expression, run_template};
pub use streams::run_stream;
pub use template_machine_loop::{Compiled, Kept, Program, Rules, Templates, run_block, run_entry};

/// A run of a template's code that came to its end, with the templates that it extends, is the template's render: its text, its
/// price and its world.
pub fn ends_render()
    ensures { EndsRender }
{}

/// A run of a template's code that stopped is the template's render up to there: it ended with the render's fault, or its
/// fuel ran out where the render's does, or memory or the sink stopped it.
pub fn stops_render<X>()
    ensures { StopsRender X }
{}

/// A run of a block's code is what the block means: its text, its price and its world where it came to its end, else what it means
/// up to there.
pub fn blocks_render<X>()
    ensures { BlocksRender X }
{}

/// What a run of an expression's code tells is the expression's value, or its fault, under the fuel; or memory or the sink
/// stopped it.
pub fn expressions_evaluate()
    ensures { ExpressionsEvaluate }
{}
