//! The ends of loops.
ghost use Rattle.template_compiler_grammar.specs.Views.{statement_node_of};
ghost use Rattle.template_compiler_statement_heads.specs.Loops.{loop_end_by};
ghost use Rattle.template_compiler_statement_parts.specs.Parsed.{ParsedAs};
ghost use Rattle.template_compiler_tree.specs.Tree.{break_loop, continue_loop};
ghost use Rattle.template_compiler_tree_statements.specs.declared.statements.Stmt.TheVariants as statements;
ghost use Rattle.template_compiler_stream.specs.Spans.{KeepsSpans};

use template_compiler_statement_parts::expect_tag_end;
use template_compiler_stream::{Fault, Refusal, TokenStream};
use template_compiler_tree::{Span, Spanned};
use template_compiler_tree_statements::{Break, Continue};

/// Reads the end of a `break`, which stands inside a loop alone.
///
/// # Errors
///
/// The fault of the token that does not fit.
#[tactic(auto, using(template_compiler_statement_parts::proofs::Again::tag_end_again), unfolding(template_compiler_tokens::specs::Steps::and_then))]
pub fn read_break<'source>(
    tokens: &mut TokenStream<'source>,
    in_loop: bool,
    span: Span,
) -> Result<Spanned<Break>, Refusal>
    ensures parsed { let table = tokens.old.spans in
        ParsedAs (λ n. statement_node_of (statements.Break n)) (loop_end_by table in_loop break_loop span tokens.old.left)
        tokens.new.left result }
    ensures spans { KeepsSpans tokens.old tokens.new }
{
    if !in_loop {
        return Err(Refusal::Token(Fault::Syntax));
    }
    expect_tag_end(tokens)?;
    Ok(Spanned::new(Break, tokens.expand_span(span)))
}

/// Reads the end of a `continue`, which stands inside a loop alone.
///
/// # Errors
///
/// The fault of the token that does not fit.
#[tactic(auto, using(template_compiler_statement_parts::proofs::Again::tag_end_again), unfolding(template_compiler_tokens::specs::Steps::and_then))]
pub fn read_continue<'source>(
    tokens: &mut TokenStream<'source>,
    in_loop: bool,
    span: Span,
) -> Result<Spanned<Continue>, Refusal>
    ensures parsed { let table = tokens.old.spans in
        ParsedAs (λ n. statement_node_of (statements.Continue n)) (loop_end_by table in_loop continue_loop span tokens.old.left)
        tokens.new.left result }
    ensures spans { KeepsSpans tokens.old tokens.new }
{
    if !in_loop {
        return Err(Refusal::Token(Fault::Syntax));
    }
    expect_tag_end(tokens)?;
    Ok(Spanned::new(Continue, tokens.expand_span(span)))
}
