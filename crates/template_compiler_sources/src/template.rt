//! The statements of a whole template.
ghost use Rattle.std.specs.Prelude.{◌≡◌, [], IfOk};
ghost use Rattle.template_compiler_grammar.specs.TemplateReader.{template_of};
ghost use Rattle.template_compiler_sources.specs.Wholes.{ParsedWhole};
ghost use Rattle.template_compiler_tokens.specs.Places.{stretch};
ghost use Rattle.template_compiler_stream.specs.Spans.{KeepsSpans};

use crate::distinct::are_distinct;
use crate::names::block_names;
use crate::reads::ExpressionParser;
use std::alloc::Global;
use template_compiler_statement_makers::Around;
use template_compiler_statement_parser::read_statements;
use template_compiler_stream::{Fault, Refusal, TokenStream};
use template_compiler_tree_statements::Stmt;

// How deep statements and expressions may nest.
pub(crate) const MAX_DEPTH: u32 = 150;

// Reads all tokens as the statements of a template.
#[tactic(auto, unfolding(template_compiler_grammar::specs::TemplateReader::template_of, template_compiler_grammar::specs::TemplateReader::template_behind))]
pub(crate) fn read_template<'source>(
    alloc: Global,
    tokens: &mut TokenStream<'source>,
) -> Result<Vec<Stmt<'source>>, Refusal>
    ensures parsed { let table = tokens.old.spans in
        ParsedWhole (template_of table tokens.old.left) (stretch table tokens.old.left []) result }
    ensures done { IfOk result (λ _. tokens.new.left ≡ []) }
    ensures spans { KeepsSpans tokens.old tokens.new }
{
    let body = read_statements::<ExpressionParser>(alloc, tokens, MAX_DEPTH, Around::nothing())?;
    if !tokens.is_done() {
        return Err(Refusal::Token(tokens.fault()));
    }
    let names = block_names(alloc, &body)?;
    if are_distinct(alloc, &names)? {
        Ok(body)
    } else {
        Err(Refusal::Token(Fault::Syntax))
    }
}
