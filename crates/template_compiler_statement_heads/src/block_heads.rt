//! Blocks: their heads, and what ends them.
ghost use Rattle.std.specs.Prelude.{◌≡◌};
ghost use Rattle.template_compiler_statement_heads.specs.DeclarationHeads.{block_head, block_of, ended_block};
ghost use Rattle.template_compiler_statement_makers.specs.Listed.{statement_nodes_in, statements_in};
ghost use Rattle.template_compiler_statement_parts.specs.Parsed.{ParsedAs};
ghost use Rattle.template_compiler_grammar.specs.TemplateTrees.{is_block_body};
ghost use Rattle.template_compiler_grammar.specs.Views.{statement_node_of};
ghost use Rattle.template_compiler_tree_statements.specs.declared.statements.Stmt.TheVariants as statements;
ghost use Rattle.template_compiler_stream.specs.Spans.{KeepsSpans};

use std::alloc::Global;
use template_compiler_statement_makers::{is_blank, makers};
use template_compiler_statement_parts::{expect_block_end, expect_tag_end, read_flag};
use template_compiler_stream::{Fault, Refusal, TokenStream};
use template_compiler_tree::{Span, Spanned};
use template_compiler_tree_statements::{Block, Stmt};

/// The head of a block.
#[derive(Clone, Copy)]
pub struct BlockHead<'source> {
    pub name: &'source str,
    pub required: bool,
}

/// Reads the head of a block, which stands in no macro.
///
/// ```text
/// title required %}
/// title %}
/// ```
///
/// # Errors
///
/// The fault of the token that does not fit.
#[tactic(auto, using(template_compiler_statement_parts::proofs::Again::tag_end_again, crate::proofs::Named::block_here, crate::proofs::Named::no_block), unfolding(template_compiler_tokens::specs::Steps::and_then))]
pub fn read_block<'source>(
    tokens: &mut TokenStream<'source>,
    in_macro: bool,
) -> Result<BlockHead<'source>, Refusal>
    ensures parsed { ParsedAs block_of (block_head in_macro tokens.old.left) tokens.new.left result }
    ensures spans { KeepsSpans tokens.old tokens.new }
{
    match tokens.word() {
        Some(name) => {
            tokens.advance();
            if in_macro {
                return Err(Refusal::Token(Fault::Syntax));
            }
            let required = read_flag(tokens, "required");
            expect_tag_end(tokens)?;
            Ok(BlockHead { name, required })
        }
        None => Err(Refusal::Token(tokens.fault())),
    }
}

/// A block with its body, and the tag that ends it. A required block has a blank body.
///
/// ```text
/// {% endblock %}
/// {% endblock title %}
/// ```
///
/// # Errors
///
/// The fault of the token that does not fit, or want of memory.
#[tactic(auto, using(crate::proofs::Ended::block_end_again), unfolding(template_compiler_tokens::specs::Steps::and_then))]
pub fn read_block_end<'source>(
    alloc: Global,
    tokens: &mut TokenStream<'source>,
    head: BlockHead<'source>,
    body: Vec<Stmt<'source>>,
    span: Span,
) -> Result<Box<Spanned<Block<'source>>>, Refusal>
    ensures parsed { let table = tokens.old.spans in
        ParsedAs (λ n. statement_node_of (statements.Block n))
        (ended_block table span (block_of head.entry) (statement_nodes_in body.entry.items) tokens.old.left) tokens.new.left result }
    ensures spans { KeepsSpans tokens.old tokens.new }
{
    if !is_block_body(head.required, &body) {
        return Err(Refusal::Token(Fault::Syntax));
    }
    expect_block_end(tokens, head.name)?;
    let whole = tokens.expand_span(span);
    makers::block(alloc, head.name, head.required, body, whole).map_err(Refusal::from)
}

// A required block has a blank body. Linear.
fn is_block_body<'source>(required: bool, body: &[Stmt<'source>]) -> bool
    ensures { result ≡ is_block_body required (statements_in body.now) }
{
    if required { is_blank(body) } else { true }
}
