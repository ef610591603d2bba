//! All tokens of a source.
ghost use Rattle.std.specs.Prelude.{◌≡◌, [], ◌++◌, List, IfOk, IfErr};
ghost use Rattle.template_compiler_sources.specs.Scoped.{taken_spans, taken_words};
ghost use Rattle.template_compiler_sources.specs.Spans.{HoldsTokens};
ghost use Rattle.template_compiler_stream.specs.Left.{ended};
ghost use Rattle.template_compiler_stream.specs.declared.refusal.Refusal.TheVariants as refusals;
ghost use Rattle.template_compiler_tokenizer.specs.Held.{spanned_of};
ghost use Rattle.template_compiler_tokenizer.specs.Spans.{Spanned, words_in};

use crate::refusals::fault_of;
use crate::scoped::leave_scoped_out;
use std::alloc::Global;
use template_compiler_stream::{Fault, Refusal, TokenStream};
use template_compiler_tokenizer::Tokenizer;
use template_compiler_tokens::Token;
use template_compiler_tree::Span;

/// Reads the tokens that are left of a template, and what stands behind them where that is none. Where blocks may be
/// `scoped`, it leaves out each such word behind the name of one. Linear.
///
/// # Errors
///
/// Want of memory.
pub fn read_tokens<'source>(
    alloc: Global,
    tokenizer: Tokenizer<'source>,
    scoped_blocks: bool,
) -> Result<TokenStream<'source>, Refusal>
    ensures tokens { IfOk result (λ stream. stream.left ≡ taken_words scoped_blocks tokenizer.entry.left) }
    ensures placed { IfOk result (λ stream. HoldsTokens (taken_spans scoped_blocks tokenizer.entry.spans) stream) }
    ensures refused { IfErr result (λ refusal. refusal ≡ refusals.OutOfMemory) }
{
    let mut tokens = with_room(alloc, tokenizer.source());
    match tokenizer.read_all(&mut tokens) {
        Ok(()) => Ok(stream_of(tokens, None, scoped_blocks)),
        Err(error) => match fault_of(error.kind()) {
            Some(fault) => Ok(stream_of(tokens, Some(fault), scoped_blocks)),
            None => Err(Refusal::OutOfMemory),
        },
    }
}

// A stream of tokens in their order, without the words that are left out, and of what stands behind them.
fn stream_of<'source>(
    mut tokens: Vec<(Token<'source>, Span)>,
    fault: Option<Fault>,
    scoped_blocks: bool,
) -> TokenStream<'source>
    ensures { (rest : List Spanned) → words_in rest ≡ ended fault →
        HoldsTokens (taken_spans scoped_blocks (spanned_of tokens.entry.items ++ rest)) result }
{
    leave_scoped_out(scoped_blocks, &mut tokens);
    TokenStream::new(tokens, fault)
}

// How few bytes of a source a token takes where many stand in it.
const TOKEN_WIDTH: usize = 3;

// No token, and room for those of a source: what no token takes of it is never touched. The room may be refused.
fn with_room<'source>(alloc: Global, source: &str) -> Vec<(Token<'source>, Span)>
    ensures { result.items ≡ [] }
{
    let mut tokens = Vec::new(alloc);
    match tokens.reserve(source.len() / TOKEN_WIDTH) {
        Ok(()) | Err(_) => tokens,
    }
}
