//! Readings of the first tokens of a source, for as many of them as it takes to find the one that a reading ends at.
ghost use Rattle.std.specs.Prelude.{◌≡◌, ◌≤◌, ◌↔◌, List, Err, IfOk, IsTrue, length, map, min, take};
ghost use Rattle.template_compiler_grammar.specs.TreeReader.{template_of};
ghost use Rattle.template_compiler_sources.specs.Ends.{HasTokens, Reaches, ReadsTo};
ghost use Rattle.template_compiler_sources.specs.Wholes.{expression_alone};
ghost use Rattle.template_compiler_syntax.specs.Flat.{IsTokens};
ghost use Rattle.template_compiler_sources.specs.Scoped.{taken_words};
ghost use Rattle.template_compiler_sources.specs.Spelled.{IsSpelled};
ghost use Rattle.template_compiler_stream.specs.Refusals.{fault_of};
ghost use Rattle.template_compiler_tokens.specs.Places.{token_count};
ghost use Rattle.template_compiler_tokens.specs.Token.{Token, bad_escape};
ghost use Rattle.template_compiler_tokens.specs.View.{token_of};

use crate::expression::whole_expression;
use crate::source::whole_template;
use crate::{read_expression_tokens, read_tokens};
use std::alloc::{AllocError, Global};
use template_compiler_stream::{Fault, First, Refusal, TokenStream};
use template_compiler_syntax::SyntaxConfig;
use template_compiler_tokenizer::Tokenizer;
use template_compiler_tokens::Token as Scanned;
use template_compiler_tree::Span;

/// A source, and what it is read as.
#[derive(Drop)]
pub(crate) enum Text<'source> {
    Template {
        source: &'source str,
        filename: &'source str,
        syntax: SyntaxConfig,
    },
    Expression(&'source str),
}

impl<'source> Text<'source> {
    /// Whether the reading of the first so many of all tokens comes to their end, or goes over it.
    pub(crate) fn reaches(
        &self,
        alloc: Global,
        place: usize,
        count: usize,
    ) -> Result<bool, AllocError>
        requires { (ts : List Token) → HasTokens self.now ts → count ≡ token_count ts }
        ensures { IfOk result (λ yes. (ts : List Token) → HasTokens self.now ts → place ≤ count →
            (IsTrue yes ↔ Reaches self.now ts place)) }
    {
        if self.reads_to(alloc, place)? {
            Ok(true)
        } else if place < count {
            self.reads_to(alloc, place + 1)
        } else {
            Ok(false)
        }
    }

    // Whether the reading of the first so many tokens comes to their end.
    fn reads_to(&self, alloc: Global, count: usize) -> Result<bool, AllocError>
        ensures { IfOk result (λ yes. (ts : List Token) → HasTokens self.now ts → count ≤ token_count ts →
            (IsTrue yes ↔ ReadsTo self.now ts count)) }
    {
        let first = self.first_tokens(alloc, count)?;
        let mut tokens = TokenStream::new(first, Some(Fault::Escape));
        match self {
            Text::Template { .. } => template_comes_to_mark(alloc, &mut tokens),
            Text::Expression(_) => expression_comes_to_mark(alloc, &mut tokens),
        }
    }

    /// How many tokens the source has; what is none is not counted.
    pub(crate) fn count(&self, alloc: Global) -> Result<usize, AllocError>
        ensures { IfOk result (λ count. (ts : List Token) → HasTokens self.now ts → count ≡ token_count ts) }
    {
        let all = self.first_tokens(alloc, usize::MAX)?;
        Ok(all.len())
    }

    // The first so many tokens of the source, each with where it stands, or all where it has fewer.
    fn first_tokens(
        &self,
        alloc: Global,
        count: usize,
    ) -> Result<Vec<(Scanned<'source>, Span)>, AllocError>
        ensures count { IfOk result (λ first. (ts : List Token) → HasTokens self.now ts → length first.items ≡ min count (token_count ts)) }
        ensures tokens { IfOk result (λ first. (ts : List Token) → HasTokens self.now ts → count ≤ token_count ts →
            map (λ t. token_of t.0) first.items ≡ take count ts) }
    {
        let mut tokens = self.tokens(alloc)?;
        take_first(alloc, &mut tokens, count)
    }

    /// All tokens.
    pub(crate) fn tokens(&self, alloc: Global) -> Result<TokenStream<'source>, AllocError>
        ensures { IfOk result (λ stream. (ts : List Token) → HasTokens self.now ts → ts ≡ stream.left) }
    {
        match self {
            Text::Template {
                source,
                filename,
                syntax,
            } => template_tokens(alloc, source, filename, syntax),
            Text::Expression(source) => expression_tokens(alloc, source),
        }
    }
}

/// Takes the first so many tokens that are left, each with where it stands, or all where fewer are.
pub(crate) fn take_first<'source>(
    alloc: Global,
    tokens: &mut TokenStream<'source>,
    count: usize,
) -> Result<Vec<(Scanned<'source>, Span)>, AllocError>
    ensures count { IfOk result (λ first. length first.items ≡ min count (token_count tokens.old.left)) }
    ensures tokens { IfOk result (λ first. count ≤ token_count tokens.old.left →
        map (λ t. token_of t.0) first.items ≡ take count tokens.old.left) }
{
    let mut first = Vec::new(alloc);
    while first.len() < count {
        match tokens.take() {
            First::Token(token, span) => first.push((token, span))?,
            First::End => return Ok(first),
            First::Bad(_) => return Ok(first),
        }
    }
    Ok(first)
}

// The tokens of a template.
fn template_tokens<'source>(
    alloc: Global,
    source: &'source str,
    filename: &'source str,
    syntax: &SyntaxConfig,
) -> Result<TokenStream<'source>, AllocError>
    ensures { IfOk result (λ stream. (ts : List Token) → IsTokens syntax.now source.now ts →
        taken_words syntax.now.scoped_blocks ts ≡ stream.left) }
{
    let scoped = syntax.scoped_blocks();
    let tokenizer = Tokenizer::new(alloc, source, filename, syntax.clone()?);
    match read_tokens(alloc, tokenizer, scoped) {
        Ok(tokens) => Ok(tokens),
        Err(_wanting) => Err(AllocError),
    }
}

// The tokens of an expression.
fn expression_tokens<'source>(
    alloc: Global,
    source: &'source str,
) -> Result<TokenStream<'source>, AllocError>
    ensures { IfOk result (λ stream. (ts : List Token) → IsSpelled source.now ts → ts ≡ stream.left) }
{
    match read_expression_tokens(alloc, source) {
        Ok(tokens) => Ok(tokens),
        Err(_wanting) => Err(AllocError),
    }
}

// Whether the reading of a template comes to a bad escape.
fn template_comes_to_mark(alloc: Global, tokens: &mut TokenStream<'_>) -> Result<bool, AllocError>
    ensures { IfOk result (λ yes. IsTrue yes ↔ (template_of tokens.old.left ≡ Err bad_escape)) }
{
    match whole_template(alloc, tokens) {
        Ok(_tree) => Ok(false),
        Err(Refusal::Token(fault)) => Ok(is_mark(fault)),
        Err(Refusal::OutOfMemory) => Err(AllocError),
    }
}

// Whether the reading of an expression comes to a bad escape.
fn expression_comes_to_mark(alloc: Global, tokens: &mut TokenStream<'_>) -> Result<bool, AllocError>
    ensures { IfOk result (λ yes. IsTrue yes ↔ (expression_alone tokens.old.left ≡ Err bad_escape)) }
{
    match whole_expression(alloc, tokens) {
        Ok(_tree) => Ok(false),
        Err(Refusal::Token(fault)) => Ok(is_mark(fault)),
        Err(Refusal::OutOfMemory) => Err(AllocError),
    }
}

fn is_mark(fault: Fault) -> bool
    ensures { IsTrue result ↔ (fault_of fault ≡ bad_escape) }
{
    match fault {
        Fault::Escape => true,
        Fault::Syntax => false,
        Fault::Float => false,
    }
}
