//! The heads of conditions, of `with`, of `autoescape` and of filter blocks.
ghost use Rattle.std.specs.Prelude.{◌≡◌, [], IfOk};
ghost use Rattle.template_compiler_statement_heads.specs.Heads.{expression_head, filter_head, with_head};
ghost use Rattle.template_compiler_statement_parts.specs.Parsed.{ParsedAs, ParsedNode};
ghost use Rattle.template_compiler_grammar.specs.TemplateReaderParts.{tag_end};
ghost use Rattle.template_compiler_grammar.specs.Nodes.{given_node};
ghost use Rattle.template_compiler_grammar.specs.TemplateReader.{here};
ghost use Rattle.template_compiler_grammar.specs.Views.{node_of, placed_assignments_in};
ghost use Rattle.template_compiler_stream.specs.Spans.{KeepsSpans};

use std::alloc::Global;
use template_compiler_statement_parts::{ReadsExpressions, expect_tag_end, read_assignments};
use template_compiler_stream::{Fault, Refusal, TokenStream};
use template_compiler_tree::{Expr, Span, Spanned};
use template_compiler_tree_statements::{AutoEscape, FilterBlock, IfCond};

// An expression, and the end of its tag.
#[inline(always)]
#[tactic(auto, using(template_compiler_statement_parts::proofs::Again::tag_end_again), unfolding(template_compiler_tokens::specs::Steps::and_then, template_compiler_grammar::specs::TemplateReader::here, template_compiler_grammar::specs::TemplateReader::here_by))]
fn read_only_expression<'source, R: ReadsExpressions>(
    alloc: Global,
    tokens: &mut TokenStream<'source>,
    left: u32,
) -> Result<Expr<'source>, Refusal>
    ensures parsed { let table = tokens.old.spans in ParsedNode (expression_head (here table left) tokens.old.left) tokens.new.left result }
    ensures spans { KeepsSpans tokens.old tokens.new }
{
    let expr = R::read_expression(alloc, tokens, left)?;
    expect_tag_end(tokens)?;
    Ok(expr)
}

/// Reads the head of an `autoescape`.
///
/// ```text
/// false %}
/// "json" if script else "html" %}
/// ```
///
/// # Errors
///
/// The fault of the token that does not fit, or want of memory.
pub fn read_auto_escape<'source, R: ReadsExpressions>(
    alloc: Global,
    tokens: &mut TokenStream<'source>,
    left: u32,
    span: Span,
) -> Result<Box<Spanned<AutoEscape<'source>>>, Refusal>
    ensures parsed { let table = tokens.old.spans in
        ParsedAs (λ n. node_of n.value.node.enabled) (expression_head (here table left) tokens.old.left) tokens.new.left result }
    ensures spans { KeepsSpans tokens.old tokens.new }
    ensures empty { IfOk result (λ n. n.value.node.body.items ≡ []) }
{
    let enabled = read_only_expression::<R>(alloc, tokens, left)?;
    let node = AutoEscape {
        enabled,
        body: Vec::new(alloc),
    };
    Spanned::boxed(alloc, node, span).map_err(Refusal::from)
}

/// Reads the head of a condition, an `if` or an `elif`.
///
/// ```text
/// a and not b %}
/// ```
///
/// # Errors
///
/// The fault of the token that does not fit, or want of memory.
pub fn read_branch<'source, R: ReadsExpressions>(
    alloc: Global,
    tokens: &mut TokenStream<'source>,
    left: u32,
    span: Span,
) -> Result<Box<Spanned<IfCond<'source>>>, Refusal>
    ensures parsed { let table = tokens.old.spans in
        ParsedAs (λ n. node_of n.value.node.expr) (expression_head (here table left) tokens.old.left) tokens.new.left result }
    ensures spans { KeepsSpans tokens.old tokens.new }
    ensures span { IfOk result (λ n. n.value.span ≡ span) }
    ensures empty { IfOk result (λ n. n.value.node.true_body.items ≡ []) }
    ensures no_other { IfOk result (λ n. n.value.node.false_body.items ≡ []) }
{
    let expr = read_only_expression::<R>(alloc, tokens, left)?;
    let node = IfCond {
        expr,
        true_body: Vec::new(alloc),
        false_body: Vec::new(alloc),
    };
    Spanned::boxed(alloc, node, span).map_err(Refusal::from)
}

/// Reads the head of a filter block. The chain of its filters is never empty.
///
/// ```text
/// upper %}
/// replace("a", "b")|trim %}
/// ```
///
/// # Errors
///
/// The fault of the token that does not fit, or want of memory.
#[tactic(auto, using(crate::proofs::Filters::filters_given), unfolding(template_compiler_tokens::specs::Steps::and_then, template_compiler_grammar::specs::TemplateReader::here, template_compiler_grammar::specs::TemplateReader::here_by))]
pub fn read_filter_block<'source, R: ReadsExpressions>(
    alloc: Global,
    tokens: &mut TokenStream<'source>,
    left: u32,
    span: Span,
) -> Result<Box<Spanned<FilterBlock<'source>>>, Refusal>
    ensures parsed { let table = tokens.old.spans in
        ParsedAs (λ n. given_node (node_of n.value.node.filter)) (filter_head (here table left) tokens.old.left) tokens.new.left result }
    ensures spans { KeepsSpans tokens.old tokens.new }
    ensures empty { IfOk result (λ n. n.value.node.body.items ≡ []) }
{
    let first = R::read_filter(alloc, tokens, left, None)?;
    match R::read_filter_chain(alloc, tokens, left, Some(first))? {
        Some(filter) => read_filter_end(alloc, tokens, filter, span),
        None => Err(Refusal::Token(Fault::Syntax)),
    }
}

// The head of a filter block, behind its filters.
#[inline(always)]
#[tactic(auto, using(template_compiler_statement_parts::proofs::Again::tag_end_again))]
fn read_filter_end<'source>(
    alloc: Global,
    tokens: &mut TokenStream<'source>,
    filter: Expr<'source>,
    span: Span,
) -> Result<Box<Spanned<FilterBlock<'source>>>, Refusal>
    ensures parsed { ParsedAs (λ n. given_node (node_of n.value.node.filter))
        (tag_end (given_node (node_of filter.entry)) tokens.old.left) tokens.new.left result }
    ensures spans { KeepsSpans tokens.old tokens.new }
    ensures empty { IfOk result (λ n. n.value.node.body.items ≡ []) }
{
    expect_tag_end(tokens)?;
    let node = FilterBlock {
        filter,
        body: Vec::new(alloc),
    };
    Spanned::boxed(alloc, node, span).map_err(Refusal::from)
}

/// Reads the targets of a `with` and their values, and the end of its tag.
///
/// ```text
/// %}
/// a = 1, (b, c) = pair %}
/// ```
///
/// # Errors
///
/// The fault of the token that does not fit, or want of memory.
#[tactic(auto, using(template_compiler_statement_parts::proofs::Again::tag_end_again), unfolding(template_compiler_tokens::specs::Steps::and_then))]
pub fn read_with<'source, R: ReadsExpressions>(
    alloc: Global,
    tokens: &mut TokenStream<'source>,
    left: u32,
) -> Result<Vec<(Expr<'source>, Expr<'source>)>, Refusal>
    ensures parsed { let table = tokens.old.spans in
        ParsedAs (λ v. placed_assignments_in v.items) (with_head table (here table left) tokens.old.left) tokens.new.left result }
    ensures spans { KeepsSpans tokens.old tokens.new }
{
    let assignments = read_assignments::<R>(alloc, tokens, left)?;
    expect_tag_end(tokens)?;
    Ok(assignments)
}
