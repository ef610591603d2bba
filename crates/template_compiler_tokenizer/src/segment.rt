// The tokens of a segment, one behind another.
ghost use Rattle.std.specs.Prelude.{◌≤◌, ◌<◌, ◌+◌, Ok, drop, length};
ghost use Rattle.std.specs.Str.{IsCharBoundary};
ghost use Rattle.template_compiler_tokens.specs.Stretches.{BeginsBy};
ghost use Rattle.template_compiler_scanner.specs.Scans.{Scans};
ghost use Rattle.template_compiler_tokens.specs.declared.token.Token.TheVariants.{Ident};
ghost use Rattle.template_compiler_placed_tokens.specs.Ends.{IsSegmentEnd};
ghost use Rattle.template_compiler_tokenizer.specs.Held.{StandsIn};
ghost use Rattle.template_compiler_tokenizer.specs.Inner.{Puts, PutsEnd, ReadsSegment, ReadsToken, standing_in};

use crate::all::push;
use std::alloc::Global;
use template_compiler_placed_tokens::{
    Found, SegmentEnd, brackets_behind, end_token, next_place_of,
};
use template_compiler_scanner::{scan_digit, scan_mark, scan_name, scan_token};
use template_compiler_syntax::{StartMarker, Trim};
use template_compiler_tokens::{Stretch, Token, next_span};
use template_compiler_tree::Span;
use template_values_errors::ErrorKind;

/// Where a reader stands inside a segment, with so many open brackets.
#[derive(Clone, Copy)]
pub struct Inner {
    pub depth: usize,
    pub from: usize,
    pub stretch: Stretch,
}

/// Reads the tokens of the segment that a reader stands in and that ends so, with its end, whose sign it answers.
#[inline(always)]
pub(crate) fn read_inside<'source>(
    alloc: Global,
    source: &'source str,
    end: SegmentEnd,
    at: &mut Inner,
    tokens: &mut Vec<(Token<'source>, Span)>,
) -> Result<Trim, ErrorKind>
    requires end { IsSegmentEnd end }
    requires stands { StandsIn end.syntax.now source.now (standing_in end.kind at.old) }
    ensures { ReadsSegment end.entry.syntax.now source.now end.entry.kind at.old at.new tokens.old.items tokens.new.items result }
{
    'tokens: loop {
        match next_place_of(source, end, at.depth, at.from) {
            Found::End(place, last, next) => {
                return match put_end(source, end.kind, place, next, at, tokens) {
                    Ok(()) => Ok(last),
                    Err(refused) => Err(refused),
                };
            }
            Found::Token(place) => match scan_name(source.split_at(place).1) {
                Some(name) => match read_name(source, place, name, at, tokens) {
                    Ok(()) => {}
                    Err(refused) => return Err(refused),
                },
                None => match read_token(alloc, source, place, at, tokens) {
                    Ok(()) => {}
                    Err(refused) => return Err(refused),
                },
            },
        }
    }
}

// Puts the end of a segment behind the tokens that are held, and passes it.
#[inline(always)]
fn put_end<'source>(
    source: &str,
    kind: StartMarker,
    place: usize,
    next: usize,
    at: &mut Inner,
    tokens: &mut Vec<(Token<'source>, Span)>,
) -> Result<(), ErrorKind>
    requires begins { BeginsBy source.now place at.old.stretch }
    requires ordered { place ≤ next }
    requires within { next ≤ length source.now }
    ensures { PutsEnd source.now kind place next at.new tokens.old.items tokens.new.items result }
{
    let span = next_span(source, &mut at.stretch, place, next);
    at.from = next;
    push(tokens, end_token(kind), span)
}

// Reads the name at a place.
#[inline(always)]
fn read_name<'source>(
    source: &str,
    place: usize,
    name: &'source str,
    at: &mut Inner,
    tokens: &mut Vec<(Token<'source>, Span)>,
) -> Result<(), ErrorKind>
    requires start { IsCharBoundary source.now place }
    requires depth { at.old.depth ≤ place }
    requires begins { BeginsBy source.now place at.old.stretch }
    requires name { Scans (drop place source.now) (Ok (Ident name, length name.now)) }
    requires cut { IsCharBoundary (drop place source.now) (length name.now) }
    requires some { 0 < length name.now }
    ensures { ReadsToken source.now place at.old at.new tokens.old.items tokens.new.items result }
{
    put(source, at, place, Token::Ident(name), name.len(), tokens)
}

// Reads the token at a place behind white space that is no name: most are signs.
#[inline(always)]
fn read_token<'source>(
    alloc: Global,
    source: &'source str,
    place: usize,
    at: &mut Inner,
    tokens: &mut Vec<(Token<'source>, Span)>,
) -> Result<(), ErrorKind>
    requires start { IsCharBoundary source.now place }
    requires depth { at.old.depth ≤ place }
    requires begins { BeginsBy source.now place at.old.stretch }
    ensures { ReadsToken source.now place at.old at.new tokens.old.items tokens.new.items result }
{
    match scan_mark(source.split_at(place).1) {
        Some((mark, width)) => put(source, at, place, mark, width, tokens),
        None => match scan_digit(source.split_at(place).1) {
            Some(digit) => put(source, at, place, Token::Int(digit), 1, tokens),
            None => read_other(alloc, source, place, at, tokens),
        },
    }
}

// The same for any token.
#[inline(never)]
fn read_other<'source>(
    alloc: Global,
    source: &'source str,
    place: usize,
    at: &mut Inner,
    tokens: &mut Vec<(Token<'source>, Span)>,
) -> Result<(), ErrorKind>
    requires start { IsCharBoundary source.now place }
    requires depth { at.old.depth ≤ place }
    requires begins { BeginsBy source.now place at.old.stretch }
    ensures { ReadsToken source.now place at.old at.new tokens.old.items tokens.new.items result }
{
    match scan_token(alloc, source.split_at(place).1) {
        Ok((token, width)) => put(source, at, place, token, width, tokens),
        Err(kind) => Err(kind),
    }
}

// Puts a token behind those that are held, and passes it.
#[inline(always)]
fn put<'source>(
    source: &str,
    at: &mut Inner,
    place: usize,
    token: Token<'source>,
    width: usize,
    tokens: &mut Vec<(Token<'source>, Span)>,
) -> Result<(), ErrorKind>
    requires depth { at.old.depth ≤ place }
    requires begins { BeginsBy source.now place at.old.stretch }
    requires within { place + width ≤ length source.now }
    ensures { Puts source.now place token.entry width at.old at.new tokens.old.items tokens.new.items result }
{
    let next = place + width;
    let span = next_span(source, &mut at.stretch, place, next);
    at.depth = brackets_behind(&token, at.depth);
    at.from = next;
    push(tokens, token, span)?;
    Ok(())
}
