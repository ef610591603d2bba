//! Statements about values.
ghost use Rattle.template_compiler_statement_parts.specs.Parsed.{ParsedAs};
ghost use Rattle.template_compiler_grammar.specs.TemplateReader.{do_by, here, print_by};
ghost use Rattle.template_compiler_grammar.specs.Views.{statement_node_of};
ghost use Rattle.template_compiler_tree_statements.specs.declared.statements.Stmt.TheVariants as statements;
ghost use Rattle.template_compiler_stream.specs.Spans.{KeepsSpans};

use std::alloc::Global;
use template_compiler_statement_parts::{ReadsExpressions, expect_print_end, expect_tag_end};
use template_compiler_stream::{Fault, Refusal, TokenStream};
use template_compiler_tree::{Span, Spanned};
use template_compiler_tree_statements::{Do, EmitExpr};

/// Reads a print, behind its start.
///
/// # Errors
///
/// The fault of the token that does not fit, or want of memory.
#[tactic(auto, using(template_compiler_statement_parts::proofs::Again::print_end_again), unfolding(template_compiler_tokens::specs::Steps::and_then, template_compiler_grammar::specs::TemplateReader::here, template_compiler_grammar::specs::TemplateReader::here_by, template_compiler_grammar::specs::TemplateReader::print_by))]
pub fn read_print<'source, R: ReadsExpressions>(
    alloc: Global,
    tokens: &mut TokenStream<'source>,
    left: u32,
    span: Span,
) -> Result<Spanned<EmitExpr<'source>>, Refusal>
    ensures parsed { let table = tokens.old.spans in
        ParsedAs (λ n. statement_node_of (statements.EmitExpr n)) (print_by table (here table left) span tokens.old.left)
        tokens.new.left result }
    ensures spans { KeepsSpans tokens.old tokens.new }
{
    let expr = R::read_expression(alloc, tokens, left)?;
    expect_print_end(tokens)?;
    Ok(Spanned::new(EmitExpr { expr }, tokens.expand_span(span)))
}

/// Reads a `do`.
///
/// # Errors
///
/// The fault of the token that does not fit, or want of memory.
#[tactic(auto, using(template_compiler_statement_parts::proofs::Calls::call_here, template_compiler_statement_parts::proofs::Calls::no_call, template_compiler_statement_parts::proofs::Again::tag_end_again), unfolding(template_compiler_tokens::specs::Steps::and_then, template_compiler_grammar::specs::TemplateReader::here, template_compiler_grammar::specs::TemplateReader::here_by, template_compiler_grammar::specs::TemplateReader::do_by))]
pub fn read_do<'source, R: ReadsExpressions>(
    alloc: Global,
    tokens: &mut TokenStream<'source>,
    left: u32,
    span: Span,
) -> Result<Spanned<Do<'source>>, Refusal>
    ensures parsed { let table = tokens.old.spans in
        ParsedAs (λ n. statement_node_of (statements.Do n)) (do_by table (here table left) span tokens.old.left) tokens.new.left result }
    ensures spans { KeepsSpans tokens.old tokens.new }
{
    let expr = R::read_expression(alloc, tokens, left)?;
    match expr.into_call() {
        Some(call) => {
            expect_tag_end(tokens)?;
            Ok(Spanned::new(Do { call }, tokens.expand_span(span)))
        }
        None => Err(Refusal::Token(Fault::Syntax)),
    }
}
