//! Names, numbers, texts, and the words that are literals.
ghost use Rattle.std.specs.Prelude.{◌≡◌, pos, IfOk, IfErr, List, Ok, string_bytes};
ghost use Rattle.std.specs.Cow.{cow_str_bytes};
ghost use Rattle.template_compiler_expression_parts.specs.Parsed.{Parsed, ParsedAs, WentOn, dotted_by, literal_at};
ghost use Rattle.template_compiler_stream.specs.declared.refusal.Refusal.TheVariants as refusals;
ghost use Rattle.template_compiler_stream.specs.Spans.{KeepsSpans};
ghost use Rattle.template_compiler_grammar.specs.ReaderParts.{dotted_step, name_of, text_step, word_tree};
ghost use Rattle.template_compiler_grammar.specs.Nodes.{node};
ghost use Rattle.template_compiler_grammar.specs.Reader.{dot_part, nothing_deeper, primary_by, up_to};
ghost use Rattle.template_compiler_grammar.specs.Views.{node_of};
ghost use Rattle.template_compiler_tree.specs.ExpressionPlaces.{places_of};
ghost use Rattle.template_compiler_tree.specs.NodePlaces.{at, no_parts, one, parts_more};
ghost use Rattle.template_compiler_grammar.specs.Trees.{dotted};
ghost use Rattle.template_compiler_grammar.specs.Words.{literal_word};
ghost use Rattle.template_compiler_tokens.specs.Steps.{all, and_then};
ghost use Rattle.template_compiler_tokens.specs.Token as lexed;
ghost use Rattle.template_compiler_tokens.specs.View.{token_of};
ghost use Rattle.template_compiler_tree.specs.Tree.{constant, item};
ghost use Rattle.template_compiler_tree.specs.View.{expression_of};
ghost use Rattle.template_values_model.specs.Val.{int, text};

use std::alloc::{AllocError, Global};
use std::borrow::CowStr;
use template_compiler_stream::{Fault, First, Refusal, TokenStream};
use template_compiler_tokens::Token;
use template_compiler_tree::{Expr, Span};
use template_values_core::Value;

/// The name of a filter or a test: identifiers with dots between them.
///
/// # Errors
///
/// The fault of the token where no identifier stands, or want of memory.
#[tactic(auto, using(crate::proofs::Rounds::name_more, crate::proofs::Rounds::name_alone), unfolding(template_compiler_grammar::specs::ReaderParts::name_of))]
pub fn name<'source>(
    alloc: Global,
    tokens: &mut TokenStream<'source>,
) -> Result<CowStr<'source>, Refusal>
    ensures parsed { ParsedAs cow_str_bytes (name_of tokens.old.left) tokens.new.left result }
    ensures spans { KeepsSpans tokens.old tokens.new }
{
    let first = match tokens.word() {
        Some(first) => first,
        None => return Err(Refusal::Token(tokens.fault())),
    };
    tokens.advance();
    match tokens.skip_dotted() {
        Some(part) => Ok(CowStr::Owned(parts(tokens, joined(alloc, first, part)?)?)),
        None => Ok(CowStr::Borrowed(first)),
    }
}

fn joined(alloc: Global, first: &str, part: &str) -> Result<String, AllocError>
    ensures { IfOk result (λ s. string_bytes s ≡ dotted first.now part.now) }
{
    let mut name = String::from_str(alloc, first)?;
    put_part(&mut name, part)?;
    Ok(name)
}

fn put_part(name: &mut String, part: &str) -> Result<(), AllocError>
    ensures { IfOk result (λ _. string_bytes name.new ≡ dotted (string_bytes name.old) part.now) }
{
    name.push_str(".")?;
    name.push_str(part)
}

// The name with the parts behind it.
fn parts(tokens: &mut TokenStream, name: String) -> Result<String, AllocError>
    ensures parsed { IfOk result (λ s. all dotted_step (string_bytes name) tokens.old.left ≡ Ok (string_bytes s, tokens.new.left)) }
    ensures spans { KeepsSpans tokens.old tokens.new }
{
    let mut name = name;
    loop {
        match tokens.skip_dotted() {
            Some(part) => put_part(&mut name, part)?,
            None => return Ok(name),
        }
    }
}

/// A primary without brackets: a name, a word that is a literal, a number, or adjacent texts, which are one.
///
/// # Errors
///
/// The fault of the token that is none of these, or want of memory.
#[tactic(auto, unfolding(template_compiler_grammar::specs::Reader::primary_by))]
#[inline(always)]
pub fn literal<'source>(
    alloc: Global,
    tokens: &mut TokenStream<'source>,
) -> Result<Expr<'source>, Refusal>
    ensures parsed { Parsed (primary_by tokens.old.spans nothing_deeper tokens.old.left) tokens.new.left result }
    ensures spans { KeepsSpans tokens.old tokens.new }
{
    if let Some(name) = tokens.word() {
        let span = tokens.span();
        tokens.advance();
        return named(alloc, name, span);
    }
    if let Some(number) = tokens.number() {
        let span = tokens.span();
        tokens.advance();
        return Ok(Expr::constant(alloc, Value::from_int(i128::from(number)), span)?);
    }
    other_literal(alloc, tokens)
}

// A large number, or adjacent texts.
#[tactic(auto, unfolding(template_compiler_grammar::specs::Reader::primary_by))]
#[inline(never)]
fn other_literal<'source>(
    alloc: Global,
    tokens: &mut TokenStream<'source>,
) -> Result<Expr<'source>, Refusal>
    ensures parsed { Parsed (primary_by tokens.old.spans nothing_deeper tokens.old.left) tokens.new.left result }
    ensures spans { KeepsSpans tokens.old tokens.new }
{
    match tokens.take() {
        First::Token(token, span) => literal_from(alloc, tokens, token, span),
        First::End => Err(Refusal::Token(Fault::Syntax)),
        First::Bad(fault) => Err(Refusal::Token(fault)),
    }
}

// The literal that begins with the token, behind which the tokens stand.
#[tactic(auto, unfolding(crate::specs::Parsed::literal_at))]
#[inline(always)]
fn literal_from<'source>(
    alloc: Global,
    tokens: &mut TokenStream<'source>,
    token: Token<'source>,
    span: Span,
) -> Result<Expr<'source>, Refusal>
    ensures parsed { Parsed (literal_at tokens.old.spans span (token_of token.entry) tokens.old.left) tokens.new.left result }
    ensures spans { KeepsSpans tokens.old tokens.new }
{
    match token {
        Token::Ident(name) => named(alloc, name, span),
        Token::Int(n) => Expr::constant(alloc, Value::from_int(i128::from(n)), span).map_err(
            Refusal::from,
        ),
        Token::Int128(n) => Expr::constant(alloc, whole(n)?, span).map_err(Refusal::from),
        Token::Str(text) => texts(alloc, tokens, String::from_str(alloc, text)?, span),
        Token::String(text) => texts(alloc, tokens, text, span),
        _ => Err(Refusal::Token(Fault::Syntax)),
    }
}

// A name, or a word that is a literal.
#[inline(always)]
fn named<'source>(alloc: Global, name: &'source str, span: Span) -> Result<Expr<'source>, Refusal>
    ensures { (ts : List lexed.Token) → Parsed (Ok (node (word_tree (literal_word name.now) name.now) span no_parts, ts)) ts result }
{
    match literal_word(name) {
        Some(value) => Ok(Expr::constant(alloc, value, span)?),
        None => Ok(Expr::variable(name, span)),
    }
}

// Told from most names by their length.
#[inline(always)]
fn literal_word(name: &str) -> Option<Value>
    ensures { result ≡ literal_word name.now }
{
    if name.len() < 4 || 5 < name.len() {
        None
    } else {
        short_literal_word(name)
    }
}

#[inline(never)]
fn short_literal_word(name: &str) -> Option<Value>
    ensures { result ≡ literal_word name.now }
{
    match name {
        "true" => Some(Value::from_bool(true)),
        "True" => Some(Value::from_bool(true)),
        "false" => Some(Value::from_bool(false)),
        "False" => Some(Value::from_bool(false)),
        "none" => Some(Value::none()),
        "None" => Some(Value::none()),
        _ => None,
    }
}

// A number of a token; past 2^127 - 1 no token is a number.
fn whole(number: u128) -> Result<Value, Refusal>
    ensures value { IfOk result (λ v. v ≡ int (pos number)) }
    ensures none { IfErr result (λ e. e ≡ refusals.OutOfMemory) }
{
    match i128::try_from(number) {
        Ok(n) => Ok(Value::from_int(n)),
        Err(_) => Err(Refusal::OutOfMemory),
    }
}

// The text with those behind it.
#[inline(never)]
#[tactic(auto, unfolding(template_compiler_tokens::specs::Steps::and_then))]
fn texts<'source>(
    alloc: Global,
    tokens: &mut TokenStream<'source>,
    first: String,
    span: Span,
) -> Result<Expr<'source>, Refusal>
    ensures parsed { Parsed (and_then (all text_step (string_bytes first) tokens.old.left)
        (λ t us. Ok (node (constant (text t)) (up_to tokens.old.spans span us) no_parts, us))) tokens.new.left result }
    ensures spans { KeepsSpans tokens.old tokens.new }
{
    match Value::from_text(adjacent(tokens, first)?) {
        Ok(value) => Expr::constant(alloc, value, tokens.expand_span(span)).map_err(Refusal::from),
        Err(_) => Err(Refusal::OutOfMemory),
    }
}

fn adjacent(tokens: &mut TokenStream, first: String) -> Result<String, AllocError>
    ensures parsed { IfOk result (λ s. all text_step (string_bytes first) tokens.old.left ≡ Ok (string_bytes s, tokens.new.left)) }
    ensures spans { KeepsSpans tokens.old tokens.new }
{
    let mut text = first;
    loop {
        match tokens.skip_text(&mut text) {
            Ok(true) => {}
            Ok(false) => return Ok(text),
            Err(error) => return Err(error),
        }
    }
}

/// The attribute or the item that stands behind a dot.
///
/// # Errors
///
/// The fault of the token that is neither a name nor a number, or want of memory.
#[tactic(auto, unfolding(template_compiler_grammar::specs::Reader::dot_part))]
pub fn attribute<'source>(
    alloc: Global,
    tokens: &mut TokenStream<'source>,
    value: Expr<'source>,
    span: Span,
) -> Result<Expr<'source>, Refusal>
    ensures parsed { WentOn (dot_part tokens.old.spans span (node_of value.entry) tokens.old.left) tokens.new.left result }
    ensures spans { KeepsSpans tokens.old tokens.new }
{
    if let Some(name) = tokens.word() {
        tokens.advance();
        return Ok(Expr::attribute(alloc, value, name, tokens.expand_span(span))?);
    }
    match tokens.take() {
        First::Token(token, place) => {
            attribute_from(alloc, token, place, value, tokens.expand_span(span))
        }
        First::End => Err(Refusal::Token(Fault::Syntax)),
        First::Bad(fault) => Err(Refusal::Token(fault)),
    }
}

#[tactic(auto, unfolding(crate::specs::Parsed::dotted_by))]
#[inline(never)]
fn attribute_from<'source>(
    alloc: Global,
    token: Token<'source>,
    place: Span,
    value: Expr<'source>,
    span: Span,
) -> Result<Expr<'source>, Refusal>
    ensures { (ts : List lexed.Token) → WentOn (dotted_by place span (node_of value.entry) (token_of token.entry) ts) ts result }
{
    match token {
        Token::Ident(name) => Expr::attribute(alloc, value, name, span).map_err(Refusal::from),
        Token::Int(n) => numbered(
            alloc,
            value,
            Value::from_int(i128::from(n)),
            place,
            span,
        ).map_err(Refusal::from),
        Token::Int128(n) => numbered(alloc, value, whole(n)?, place, span).map_err(Refusal::from),
        _ => Err(Refusal::Token(Fault::Syntax)),
    }
}

// The item of a value at a number.
fn numbered<'source>(
    alloc: Global,
    value: Expr<'source>,
    number: Value,
    place: Span,
    span: Span,
) -> Result<Expr<'source>, AllocError>
    ensures { IfOk result (λ e. node_of e ≡ node (item (expression_of value.entry) (constant number)) span
        (parts_more (places_of value.entry) (one (at place no_parts)))) }
{
    let key = Expr::constant(alloc, number, place)?;
    Expr::item(alloc, value, key, span)
}
