//! Blank bodies.
ghost use Rattle.std.specs.Prelude.{◌≡◌};
ghost use Rattle.template_compiler_statement_makers.specs.Blank.{is_blank_statement};
ghost use Rattle.template_compiler_grammar.specs.TemplateTrees.{is_blank};
ghost use Rattle.template_compiler_tree_statements.specs.View.{statement_of};
ghost use Rattle.template_compiler_statement_makers.specs.Listed.{statements_in};

use template_compiler_tree_statements::Stmt;

/// Whether statements are texts of white space alone. Linear.
#[tactic(auto, using(crate::proofs::Lists::blank_more))]
pub fn is_blank<'source>(body: &[Stmt<'source>]) -> bool
    ensures { result ≡ is_blank (statements_in body.now) }
{
    for statement in body {
        if !is_blank_statement(statement) {
            return false;
        }
    }
    true
}

fn is_blank_statement<'source>(statement: &Stmt<'source>) -> bool
    ensures { result ≡ is_blank_statement (statement_of statement.now) }
{
    match statement {
        Stmt::EmitRaw(text) => text.node.raw.trim_start().is_empty(),
        _ => false,
    }
}
