//! What must stand behind something.
ghost use Rattle.template_compiler_grammar.specs.ReaderParts.{paren_end};
ghost use Rattle.template_compiler_statement_parts.specs.Parsed.{ParsedAs, passing};
ghost use Rattle.template_compiler_grammar.specs.TemplateReaderParts.{block_end_by, end_name_by, expect_assign, expect_tag, expect_word, print_end, tag_end};
ghost use Rattle.template_compiler_stream.specs.Spans.{KeepsSpans};

use template_compiler_stream::{Fault, Refusal, TokenStream};
use template_compiler_tokens::Sign;

/// Passes the end of a print.
///
/// # Errors
///
/// The fault of the token that stands there.
#[tactic(auto, using(crate::proofs::Standing::print_end_here, crate::proofs::Standing::print_end_none))]
pub fn expect_print_end<'source>(tokens: &mut TokenStream<'source>) -> Result<(), Refusal>
    ensures parsed { ParsedAs passing (print_end tt tokens.old.left) tokens.new.left result }
    ensures spans { KeepsSpans tokens.old tokens.new }
{
    if tokens.ends_print() {
        tokens.advance();
        Ok(())
    } else {
        Err(Refusal::Token(tokens.fault()))
    }
}

/// Passes the end of a tag.
///
/// # Errors
///
/// The fault of the token that stands there.
#[tactic(auto, using(crate::proofs::Standing::tag_end_here, crate::proofs::Standing::tag_end_none))]
pub fn expect_tag_end<'source>(tokens: &mut TokenStream<'source>) -> Result<(), Refusal>
    ensures parsed { ParsedAs passing (tag_end tt tokens.old.left) tokens.new.left result }
    ensures spans { KeepsSpans tokens.old tokens.new }
{
    if tokens.ends_tag() {
        tokens.advance();
        Ok(())
    } else {
        Err(Refusal::Token(tokens.fault()))
    }
}

/// Passes the word.
///
/// # Errors
///
/// The fault of the token that stands there.
#[inline(always)]
#[tactic(auto, using(crate::proofs::Standing::word_none), unfolding(template_compiler_grammar::specs::TemplateReaderParts::expect_word))]
pub fn expect_word<'source>(tokens: &mut TokenStream<'source>, word: &str) -> Result<(), Refusal>
    ensures parsed { ParsedAs passing (expect_word word.now tt tokens.old.left) tokens.new.left result }
    ensures spans { KeepsSpans tokens.old tokens.new }
{
    if tokens.skip_word(word) {
        Ok(())
    } else {
        Err(Refusal::Token(tokens.fault()))
    }
}

/// Passes `=`.
///
/// # Errors
///
/// The fault of the token that stands there.
#[tactic(auto, using(crate::proofs::Standing::assign_none), unfolding(template_compiler_grammar::specs::TemplateReaderParts::expect_assign))]
pub fn expect_assign<'source>(tokens: &mut TokenStream<'source>) -> Result<(), Refusal>
    ensures parsed { ParsedAs passing (expect_assign tt tokens.old.left) tokens.new.left result }
    ensures spans { KeepsSpans tokens.old tokens.new }
{
    if tokens.skip(Sign::Assign) {
        Ok(())
    } else {
        Err(Refusal::Token(tokens.fault()))
    }
}

/// Passes `)`.
///
/// # Errors
///
/// The fault of the token that stands there.
#[tactic(auto, using(crate::proofs::Standing::paren_none), unfolding(template_compiler_grammar::specs::ReaderParts::paren_end))]
pub fn expect_paren_end<'source>(tokens: &mut TokenStream<'source>) -> Result<(), Refusal>
    ensures parsed { ParsedAs passing (paren_end tt tokens.old.left) tokens.new.left result }
    ensures spans { KeepsSpans tokens.old tokens.new }
{
    if tokens.skip(Sign::ParenClose) {
        Ok(())
    } else {
        Err(Refusal::Token(tokens.fault()))
    }
}

/// Passes a tag that is the word alone.
///
/// # Errors
///
/// The fault of the first token that does not fit.
#[inline(always)]
#[tactic(auto, using(crate::proofs::Standing::tag_next), unfolding(crate::proofs::Opened::tag_read))]
pub fn expect_tag<'source>(tokens: &mut TokenStream<'source>, word: &str) -> Result<(), Refusal>
    ensures parsed { ParsedAs passing (expect_tag word.now tt tokens.old.left) tokens.new.left result }
    ensures spans { KeepsSpans tokens.old tokens.new }
{
    if tokens.starts_tag() {
        tokens.advance();
        expect_word(tokens, word)?;
        expect_tag_end(tokens)
    } else {
        Err(Refusal::Token(tokens.fault()))
    }
}

/// Passes the end of a block, which may have the block's name.
///
/// # Errors
///
/// The fault of the token that does not fit.
#[tactic(auto, using(crate::proofs::Standing::block_end_next), unfolding(crate::proofs::Opened::block_end_read))]
pub fn expect_block_end<'source>(
    tokens: &mut TokenStream<'source>,
    name: &str,
) -> Result<(), Refusal>
    ensures parsed { ParsedAs passing (block_end_by name.now tt tokens.old.left) tokens.new.left result }
    ensures spans { KeepsSpans tokens.old tokens.new }
{
    if tokens.starts_tag() {
        tokens.advance();
        expect_word(tokens, "endblock")?;
        expect_end_name(tokens, name)
    } else {
        Err(Refusal::Token(tokens.fault()))
    }
}

#[tactic(auto, using(crate::proofs::Standing::end_name_next), unfolding(template_compiler_grammar::specs::TemplateReaderParts::end_name_by))]
fn expect_end_name<'source>(tokens: &mut TokenStream<'source>, name: &str) -> Result<(), Refusal>
    ensures parsed { ParsedAs passing (end_name_by name.now tt tokens.old.left) tokens.new.left result }
    ensures spans { KeepsSpans tokens.old tokens.new }
{
    match tokens.word() {
        Some(end) => {
            tokens.advance();
            if end == name {
                expect_tag_end(tokens)
            } else {
                Err(Refusal::Token(Fault::Syntax))
            }
        }
        None => expect_tag_end(tokens),
    }
}
