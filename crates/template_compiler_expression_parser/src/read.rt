//! What the parser of statements reads of expressions. Each function takes the nesting levels that are left, and takes the
//! tokens of what it reads off the stream. Where it refuses, nothing is said of the tokens that are left.
ghost use Rattle.template_compiler_expression_parts.specs.Parsed.{Parsed, ParsedAs, ParsedOptional};
ghost use Rattle.template_compiler_grammar.specs.Reader.{expression_at, condition_at, filter_at, filter_chain_at};
ghost use Rattle.template_compiler_grammar.specs.TreeReader as trees;
ghost use Rattle.template_compiler_grammar.specs.Views.{optional_node_in};
ghost use Rattle.template_compiler_tree.specs.View.{expression_of, optional_in};
ghost use Rattle.template_compiler_stream.specs.Spans.{KeepsSpans};

use crate::expressions::{binary, expression, filter};
use std::alloc::Global;
use template_compiler_stream::{Level, Refusal, TokenStream};
use template_compiler_tokens::Sign;
use template_compiler_tree::Expr;

/// Reads an expression.
///
/// # Errors
///
/// The fault of the token that does not fit, or want of memory.
#[tactic(auto, unfolding(template_compiler_grammar::specs::Reader::expression_at))]
pub fn read_expression<'source>(
    alloc: Global,
    tokens: &mut TokenStream<'source>,
    left: u32,
) -> Result<Expr<'source>, Refusal>
    ensures tree { ParsedAs expression_of (trees.expression_at left tokens.old.left) tokens.new.left result }
    ensures placed { Parsed (expression_at tokens.old.spans left tokens.old.left) tokens.new.left result }
    ensures spans { KeepsSpans tokens.old tokens.new }
{
    expression(alloc, tokens, left)
}

/// Reads an expression that is no if-expression, as behind the `in` of a loop: an `if` behind it stays.
///
/// # Errors
///
/// The fault of the token that does not fit, or want of memory.
#[tactic(auto, unfolding(template_compiler_grammar::specs::Reader::condition_at))]
pub fn read_condition<'source>(
    alloc: Global,
    tokens: &mut TokenStream<'source>,
    left: u32,
) -> Result<Expr<'source>, Refusal>
    ensures tree { ParsedAs expression_of (trees.condition_at left tokens.old.left) tokens.new.left result }
    ensures placed { Parsed (condition_at tokens.old.spans left tokens.old.left) tokens.new.left result }
    ensures spans { KeepsSpans tokens.old tokens.new }
{
    binary(alloc, tokens, left, Level::Disjunction)
}

/// Reads a filter's name and its arguments: the filter of the value, or of none, as the first one of a filter block.
///
/// # Errors
///
/// The fault of the token that does not fit, or want of memory.
#[tactic(auto, unfolding(template_compiler_grammar::specs::Reader::filter_at))]
pub fn read_filter<'source>(
    alloc: Global,
    tokens: &mut TokenStream<'source>,
    left: u32,
    value: Option<Expr<'source>>,
) -> Result<Expr<'source>, Refusal>
    ensures tree { ParsedAs expression_of (trees.filter_at left (optional_in value.entry) tokens.old.left) tokens.new.left result }
    ensures placed { Parsed (filter_at tokens.old.spans left (optional_node_in value.entry) tokens.old.left) tokens.new.left result }
    ensures spans { KeepsSpans tokens.old tokens.new }
{
    let span = tokens.span();
    filter(alloc, tokens, left, value, span)
}

/// Reads the filters behind the value, or behind none, each after a `|`: the value itself where no `|` stands next.
///
/// # Errors
///
/// The fault of the token that does not fit, or want of memory.
pub fn read_filter_chain<'source>(
    alloc: Global,
    tokens: &mut TokenStream<'source>,
    left: u32,
    value: Option<Expr<'source>>,
) -> Result<Option<Expr<'source>>, Refusal>
    ensures tree { ParsedAs optional_in (trees.filter_chain_at left (optional_in value.entry) tokens.old.left) tokens.new.left result }
    ensures placed { ParsedOptional (filter_chain_at tokens.old.spans left (optional_node_in value.entry) tokens.old.left) tokens.new.left
        result }
    ensures spans { KeepsSpans tokens.old tokens.new }
{
    chain(alloc, tokens, left, value)
}

#[tactic(auto, using(crate::proofs::Chains::chain_more, crate::proofs::Chains::chain_falls, crate::proofs::Chains::chain_ends, crate::proofs::Chains::chain_fails_at), unfolding(template_compiler_grammar::specs::Reader::filter_chain_at, template_compiler_grammar::specs::Reader::filter_chain_by))]
fn chain<'source>(
    alloc: Global,
    tokens: &mut TokenStream<'source>,
    left: u32,
    value: Option<Expr<'source>>,
) -> Result<Option<Expr<'source>>, Refusal>
    ensures parsed { ParsedOptional (filter_chain_at tokens.old.spans left (optional_node_in value.entry) tokens.old.left) tokens.new.left
        result }
    ensures spans { KeepsSpans tokens.old tokens.new }
{
    let mut value = value;
    while tokens.skip(Sign::Pipe) {
        let span = tokens.span();
        let filtered = filter(alloc, tokens, left, value, span)?;
        value = Some(filtered);
    }
    Ok(value)
}
