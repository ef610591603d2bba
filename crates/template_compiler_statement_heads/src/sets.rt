//! The heads of `set`, which has values or a body.
ghost use Rattle.template_compiler_statement_heads.specs.DeclarationHeads.{set_block_head, set_head, set_head_of, set_targets};
ghost use Rattle.template_compiler_statement_makers.specs.Begun.{set_block_of};
ghost use Rattle.template_compiler_statement_parts.specs.Parsed.{ParsedAs};
ghost use Rattle.template_compiler_grammar.specs.TemplateReader.{here, set_values};
ghost use Rattle.template_compiler_grammar.specs.Views.{node_of, statement_node_of};
ghost use Rattle.template_compiler_tree_statements.specs.declared.statements.Stmt.TheVariants as statements;
ghost use Rattle.template_compiler_stream.specs.Spans.{KeepsSpans};

use std::alloc::Global;
use template_compiler_statement_parts::{
    ReadsExpressions, begins_values, expect_assign, expect_tag_end, read_more_targets, read_target,
    read_values,
};
use template_compiler_stream::{Refusal, TokenStream};
use template_compiler_tree::{Expr, Span, Spanned};
use template_compiler_tree_statements::{Set, SetBlock};

/// A `set` with its values, or the head of a set block.
#[derive(Drop)]
pub enum SetHead<'source> {
    /// `{% set target = expr %}`, whole.
    Values(Box<Spanned<Set<'source>>>),
    /// `{% set target filter %}`, with no body yet.
    Block(Box<Spanned<SetBlock<'source>>>),
}

/// Reads a `set` with its values, or the head of a set block.
///
/// ```text
/// total = total + 1 %}
/// a, (b, space.found) = pair, true %}
/// title|upper|trim %}
/// ```
///
/// # Errors
///
/// The fault of the token that does not fit, or want of memory.
#[tactic(auto, unfolding(template_compiler_tokens::specs::Steps::and_then, template_compiler_grammar::specs::TemplateReader::here, template_compiler_grammar::specs::TemplateReader::here_by))]
pub fn read_set<'source, R: ReadsExpressions>(
    alloc: Global,
    tokens: &mut TokenStream<'source>,
    left: u32,
    span: Span,
) -> Result<SetHead<'source>, Refusal>
    ensures parsed { let table = tokens.old.spans in
        ParsedAs set_head_of (set_head table (here table left) span tokens.old.left) tokens.new.left result }
    ensures spans { KeepsSpans tokens.old tokens.new }
{
    let start = tokens.span();
    let target = read_target(alloc, tokens, left, true)?;
    if begins_values(tokens) {
        return read_set_targets::<R>(alloc, tokens, left, target, start, span).map(SetHead::Values);
    }
    read_set_block::<R>(alloc, tokens, left, target, span).map(SetHead::Block)
}

// A `set` behind its first target, which begins at `start`: further targets, and the value behind `=`.
#[tactic(auto, using(template_compiler_statement_parts::proofs::Again::assign_again), unfolding(template_compiler_tokens::specs::Steps::and_then, template_compiler_grammar::specs::TemplateReader::here, template_compiler_grammar::specs::TemplateReader::here_by))]
fn read_set_targets<'source, R: ReadsExpressions>(
    alloc: Global,
    tokens: &mut TokenStream<'source>,
    left: u32,
    first: Expr<'source>,
    start: Span,
    span: Span,
) -> Result<Box<Spanned<Set<'source>>>, Refusal>
    ensures parsed { let table = tokens.old.spans in
        ParsedAs (λ n. statement_node_of (statements.Set n))
        (set_targets table (here table left) span start (node_of first.entry) tokens.old.left) tokens.new.left result }
    ensures spans { KeepsSpans tokens.old tokens.new }
{
    let target = read_more_targets(alloc, tokens, left, true, first, start)?;
    expect_assign(tokens)?;
    read_set_value::<R>(alloc, tokens, left, target, span)
}

#[tactic(auto, using(template_compiler_statement_parts::proofs::Again::tag_end_again), unfolding(template_compiler_tokens::specs::Steps::and_then, template_compiler_grammar::specs::TemplateReader::here, template_compiler_grammar::specs::TemplateReader::here_by, template_compiler_grammar::specs::TemplateReader::set_values))]
fn read_set_value<'source, R: ReadsExpressions>(
    alloc: Global,
    tokens: &mut TokenStream<'source>,
    left: u32,
    target: Expr<'source>,
    span: Span,
) -> Result<Box<Spanned<Set<'source>>>, Refusal>
    ensures parsed { let table = tokens.old.spans in
        ParsedAs (λ n. statement_node_of (statements.Set n))
        (set_values table (here table left) span (node_of target.entry) tokens.old.left) tokens.new.left result }
    ensures spans { KeepsSpans tokens.old tokens.new }
{
    let value = read_values::<R>(alloc, tokens, left)?;
    expect_tag_end(tokens)?;
    let node = Set {
        target,
        expr: value,
    };
    Spanned::boxed(alloc, node, tokens.expand_span(span)).map_err(Refusal::from)
}

// The head of a set block, behind its target.
#[tactic(auto, using(template_compiler_statement_parts::proofs::Again::tag_end_again), unfolding(template_compiler_tokens::specs::Steps::and_then, template_compiler_grammar::specs::TemplateReader::here, template_compiler_grammar::specs::TemplateReader::here_by))]
fn read_set_block<'source, R: ReadsExpressions>(
    alloc: Global,
    tokens: &mut TokenStream<'source>,
    left: u32,
    target: Expr<'source>,
    span: Span,
) -> Result<Box<Spanned<SetBlock<'source>>>, Refusal>
    ensures parsed { let table = tokens.old.spans in
        ParsedAs set_block_of (set_block_head (here table left) (node_of target.entry) tokens.old.left) tokens.new.left result }
    ensures spans { KeepsSpans tokens.old tokens.new }
{
    let filter = R::read_filter_chain(alloc, tokens, left, None)?;
    expect_tag_end(tokens)?;
    let node = SetBlock {
        target,
        filter,
        body: Vec::new(alloc),
    };
    Spanned::boxed(alloc, node, span).map_err(Refusal::from)
}
