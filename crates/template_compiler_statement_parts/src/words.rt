//! Words that may stand, and what a tag begins with.
ghost use Rattle.std.specs.Prelude.{◌≡◌, Ok, option_map};
ghost use Rattle.template_compiler_statement_parts.specs.Parsed.{ParsedAs, passing};
ghost use Rattle.template_compiler_statement_parts.specs.Tags.{next_tag};
ghost use Rattle.template_compiler_grammar.specs.TemplateReaderParts.{begins_tag, begins_values, context_by, missing_by, word_by};
ghost use Rattle.template_compiler_stream.specs.Spans.{KeepsSpans};

use crate::ends::expect_word;
use template_compiler_stream::{Refusal, TokenStream};
use template_compiler_tokens::Sign;

/// The word of the tag that stands next.
#[inline(always)]
#[tactic(auto, using(crate::proofs::Standing::next_tag_here, crate::proofs::Standing::next_tag_none))]
pub fn tag_word<'source>(tokens: &TokenStream<'source>) -> Option<&'source str>
    ensures { option_map (λ w. w.now) result ≡ next_tag tokens.now.left }
{
    if tokens.starts_tag() {
        tokens.second_word()
    } else {
        None
    }
}

/// Whether a tag of this word stands next.
#[inline(always)]
#[tactic(auto, using(crate::proofs::Standing::begins_tag_here, crate::proofs::Standing::begins_tag_none))]
pub fn begins_tag<'source>(tokens: &TokenStream<'source>, word: &str) -> bool
    ensures { result ≡ begins_tag word.now tokens.now.left }
{
    match tag_word(tokens) {
        Some(next) => next == word,
        None => false,
    }
}

/// Whether a comma or `=` stands next, as behind the first target of `set`.
#[tactic(auto, using(crate::proofs::Standing::values_here, crate::proofs::Standing::values_none))]
pub fn begins_values<'source>(tokens: &TokenStream<'source>) -> bool
    ensures { result ≡ begins_values tokens.now.left }
{
    match tokens.sign() {
        Some(sign) => match sign {
            Sign::Comma => true,
            Sign::Assign => true,
            _ => false,
        },
        None => false,
    }
}

/// Passes the word where it stands next.
#[tactic(auto, using(crate::proofs::Standing::flag_none), unfolding(template_compiler_grammar::specs::TemplateReaderParts::word_by))]
pub fn read_flag<'source>(tokens: &mut TokenStream<'source>, word: &str) -> bool
    ensures parsed { word_by word.now tokens.old.left ≡ Ok (result, tokens.new.left) }
    ensures spans { KeepsSpans tokens.old tokens.new }
{
    tokens.skip_word(word)
}

/// Passes `with context`, which changes nothing, where `with` stands next.
///
/// # Errors
///
/// The fault of the token that stands in the place of `context`.
#[tactic(auto, using(crate::proofs::Standing::context_none), unfolding(template_compiler_grammar::specs::TemplateReaderParts::context_by))]
pub fn pass_context<'source>(tokens: &mut TokenStream<'source>) -> Result<(), Refusal>
    ensures parsed { ParsedAs passing (context_by tt tokens.old.left) tokens.new.left result }
    ensures spans { KeepsSpans tokens.old tokens.new }
{
    if tokens.skip_word("with") {
        expect_word(tokens, "context")
    } else {
        Ok(())
    }
}

/// Reads `ignore missing`, with or without `with context` on either side: whether it stands there.
///
/// # Errors
///
/// The fault of the token that does not fit.
#[tactic(auto, using(crate::proofs::Parts::missing_next), unfolding(crate::proofs::Opened::missing_read))]
pub fn read_missing<'source>(tokens: &mut TokenStream<'source>) -> Result<bool, Refusal>
    ensures parsed { ParsedAs (λ b. b) (missing_by tokens.old.left) tokens.new.left result }
    ensures spans { KeepsSpans tokens.old tokens.new }
{
    pass_context(tokens)?;
    if tokens.skip_word("ignore") {
        expect_word(tokens, "missing")?;
        pass_context(tokens)?;
        Ok(true)
    } else {
        Ok(false)
    }
}
