//! The heads of loops.
ghost use Rattle.std.specs.Prelude.{◌≡◌, [], IfOk};
ghost use Rattle.template_compiler_statement_heads.specs.Heads.{for_head, in_end, in_head};
ghost use Rattle.template_compiler_statement_makers.specs.Begun.{loop_head};
ghost use Rattle.template_compiler_statement_parts.specs.Parsed.{ParsedAs};
ghost use Rattle.template_compiler_grammar.specs.TemplateReader.{here};
ghost use Rattle.template_compiler_grammar.specs.Views.{node_of, optional_node_in};
ghost use Rattle.template_compiler_stream.specs.Spans.{KeepsSpans};

use std::alloc::Global;
use template_compiler_statement_parts::{
    ReadsExpressions, expect_tag_end, expect_word, read_flag, read_loop_filter, read_targets,
};
use template_compiler_stream::{Refusal, TokenStream};
use template_compiler_tree::{Expr, Span, Spanned};
use template_compiler_tree_statements::ForLoop;

/// Reads the head of a loop.
///
/// ```text
/// item in items %}
/// key, (first, last) in pairs if last recursive %}
/// ```
///
/// # Errors
///
/// The fault of the token that does not fit, or want of memory.
#[tactic(auto, using(template_compiler_statement_parts::proofs::Again::word_again), unfolding(template_compiler_tokens::specs::Steps::and_then, template_compiler_grammar::specs::TemplateReader::here, template_compiler_grammar::specs::TemplateReader::here_by))]
pub fn read_for<'source, R: ReadsExpressions>(
    alloc: Global,
    tokens: &mut TokenStream<'source>,
    left: u32,
    span: Span,
) -> Result<Box<Spanned<ForLoop<'source>>>, Refusal>
    ensures parsed { let table = tokens.old.spans in
        ParsedAs loop_head (for_head table (here table left) tokens.old.left) tokens.new.left result }
    ensures spans { KeepsSpans tokens.old tokens.new }
    ensures empty { IfOk result (λ n. n.value.node.body.items ≡ []) }
    ensures no_other { IfOk result (λ n. n.value.node.else_body.items ≡ []) }
{
    let target = read_targets(alloc, tokens, left, false)?;
    expect_word(tokens, "in")?;
    read_in::<R>(alloc, tokens, left, target, span)
}

// The head of a loop, behind its `in`.
#[tactic(auto, unfolding(template_compiler_tokens::specs::Steps::and_then, template_compiler_grammar::specs::TemplateReader::here, template_compiler_grammar::specs::TemplateReader::here_by))]
fn read_in<'source, R: ReadsExpressions>(
    alloc: Global,
    tokens: &mut TokenStream<'source>,
    left: u32,
    target: Expr<'source>,
    span: Span,
) -> Result<Box<Spanned<ForLoop<'source>>>, Refusal>
    ensures parsed { let table = tokens.old.spans in
        ParsedAs loop_head (in_head table (here table left) (node_of target.entry) tokens.old.left) tokens.new.left result }
    ensures spans { KeepsSpans tokens.old tokens.new }
    ensures empty { IfOk result (λ n. n.value.node.body.items ≡ []) }
    ensures no_other { IfOk result (λ n. n.value.node.else_body.items ≡ []) }
{
    let iter = R::read_condition(alloc, tokens, left)?;
    let filter_expr = read_loop_filter::<R>(alloc, tokens, left)?;
    read_in_end(alloc, tokens, target, iter, filter_expr, span)
}

// The head of a loop, behind what it goes over.
#[inline(always)]
#[tactic(auto, using(template_compiler_statement_parts::proofs::Again::tag_end_again), unfolding(template_compiler_tokens::specs::Steps::and_then))]
fn read_in_end<'source>(
    alloc: Global,
    tokens: &mut TokenStream<'source>,
    target: Expr<'source>,
    iter: Expr<'source>,
    filter_expr: Option<Expr<'source>>,
    span: Span,
) -> Result<Box<Spanned<ForLoop<'source>>>, Refusal>
    ensures parsed { ParsedAs loop_head (in_end (node_of target.entry) (node_of iter.entry) (optional_node_in filter_expr.entry)
        tokens.old.left) tokens.new.left result }
    ensures spans { KeepsSpans tokens.old tokens.new }
    ensures empty { IfOk result (λ n. n.value.node.body.items ≡ []) }
    ensures no_other { IfOk result (λ n. n.value.node.else_body.items ≡ []) }
{
    let recursive = read_flag(tokens, "recursive");
    expect_tag_end(tokens)?;
    let node = ForLoop {
        target,
        iter,
        filter_expr,
        recursive,
        body: Vec::new(alloc),
        else_body: Vec::new(alloc),
    };
    Spanned::boxed(alloc, node, span).map_err(Refusal::from)
}
