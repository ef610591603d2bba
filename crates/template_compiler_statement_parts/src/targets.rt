//! Targets: names, and names that are unpacked.
ghost use Rattle.std.specs.Prelude.{◌≡◌, IfOk};
ghost use Rattle.template_compiler_statement_parts.specs.Parsed.{ParsedInto, ParsedNode, PassesPart, SteppedTo};
ghost use Rattle.template_compiler_grammar.specs.TemplateReaderParts.{more_step};
ghost use Rattle.template_compiler_grammar.specs.TemplateNodes.{unpacked_node};
ghost use Rattle.template_compiler_grammar.specs.TemplateReader.{inner_targets, more_targets_by, one_target_by, path_by, path_step, stored_by, target_by, targets_by};
ghost use Rattle.template_compiler_grammar.specs.Views.{node_of, nodes_in};
ghost use Rattle.template_compiler_stream.specs.Signs.{begins_symbol};
ghost use Rattle.template_compiler_stream.specs.Spans.{KeepsSpans};
ghost use Rattle.template_compiler_tokens.specs.Places.{next_span};
ghost use Rattle.template_compiler_tokens.specs.Steps.{all, and_then};
ghost use Rattle.template_compiler_tokens.specs.Token.{comma};

use crate::ends::expect_paren_end;
use crate::growth::put;
use crate::names::read_stored;
use std::alloc::{AllocError, Global};
use template_compiler_stream::{Fault, Refusal, TokenStream};
use template_compiler_tokens::Sign;
use template_compiler_tree::{Expr, Span};

/// Reads a target; one of `set` may have dots, as an attribute of a namespace.
///
/// # Errors
///
/// The fault of the token that does not fit, or want of memory.
#[cycle(targets)]
#[inline(always)]
#[tactic(auto, using(crate::proofs::Parts::target_next), unfolding(crate::proofs::Opened::target_read))]
pub fn read_target<'source>(
    alloc: Global,
    tokens: &mut TokenStream<'source>,
    left: u32,
    dots: bool,
) -> Result<Expr<'source>, Refusal>
    ensures parsed { let table = tokens.old.spans in
        ParsedNode (target_by table dots (inner_targets table dots left) tokens.old.left) tokens.new.left result }
    ensures spans { KeepsSpans tokens.old tokens.new }
{
    if tokens.skip(Sign::ParenOpen) {
        let targets = read_inner_targets(alloc, tokens, left, dots)?;
        expect_paren_end(tokens)?;
        Ok(targets)
    } else {
        read_path_target(alloc, tokens, dots)
    }
}

// Targets in parentheses are one nesting level deeper.
#[cycle(targets)]
#[inline(never)]
#[tactic(auto, unfolding(template_compiler_grammar::specs::TemplateReader::inner_targets))]
fn read_inner_targets<'source>(
    alloc: Global,
    tokens: &mut TokenStream<'source>,
    left: u32,
    dots: bool,
) -> Result<Expr<'source>, Refusal>
    ensures parsed { ParsedNode (inner_targets tokens.old.spans dots left tokens.old.left) tokens.new.left result }
    ensures spans { KeepsSpans tokens.old tokens.new }
{
    if left == 0 {
        Err(Refusal::Token(Fault::Syntax))
    } else {
        read_targets(alloc, tokens, left - 1, dots)
    }
}

/// Reads a target, or several that are unpacked.
///
/// # Errors
///
/// The fault of the token that does not fit, or want of memory.
#[cycle(targets)]
#[inline(always)]
#[tactic(auto, unfolding(template_compiler_tokens::specs::Steps::and_then, template_compiler_grammar::specs::TemplateReader::targets_by))]
pub fn read_targets<'source>(
    alloc: Global,
    tokens: &mut TokenStream<'source>,
    left: u32,
    dots: bool,
) -> Result<Expr<'source>, Refusal>
    ensures parsed { let table = tokens.old.spans in
        ParsedNode (targets_by table dots (inner_targets table dots left) tokens.old.left) tokens.new.left result }
    ensures spans { KeepsSpans tokens.old tokens.new }
{
    let start = tokens.span();
    let first = read_target(alloc, tokens, left, dots)?;
    read_more_targets(alloc, tokens, left, dots, first, start)
}

/// Reads the targets behind the first one, each after a comma; `start` is where the first one begins, with its parenthesis.
///
/// # Errors
///
/// The fault of the token that does not fit, or want of memory.
#[cycle(targets)]
#[inline(always)]
pub fn read_more_targets<'source>(
    alloc: Global,
    tokens: &mut TokenStream<'source>,
    left: u32,
    dots: bool,
    first: Expr<'source>,
    start: Span,
) -> Result<Expr<'source>, Refusal>
    ensures parsed { let table = tokens.old.spans in
        ParsedNode (more_targets_by table dots (inner_targets table dots left) start (node_of first.entry) tokens.old.left)
        tokens.new.left result }
    ensures spans { KeepsSpans tokens.old tokens.new }
{
    if begins_more(tokens) {
        several_targets(alloc, tokens, left, dots, first, start)
    } else {
        Ok(first)
    }
}

// The targets behind the first one, where a comma stands next.
#[cycle(targets)]
#[inline(never)]
#[tactic(auto, unfolding(template_compiler_tokens::specs::Steps::and_then, template_compiler_grammar::specs::TemplateReader::more_targets_by))]
fn several_targets<'source>(
    alloc: Global,
    tokens: &mut TokenStream<'source>,
    left: u32,
    dots: bool,
    first: Expr<'source>,
    start: Span,
) -> Result<Expr<'source>, Refusal>
    ensures parsed { let table = tokens.old.spans in
        ParsedNode (more_targets_by table dots (inner_targets table dots left) start (node_of first.entry) tokens.old.left)
        tokens.new.left result }
    ensures spans { KeepsSpans tokens.old tokens.new }
{
    let mut targets = Vec::new(alloc);
    put(&mut targets, first)?;
    all_targets(alloc, tokens, left, dots, &mut targets)?;
    unpacked(alloc, targets, tokens.expand_span(start)).map_err(Refusal::from)
}

#[cycle(targets)]
fn all_targets<'source>(
    alloc: Global,
    tokens: &mut TokenStream<'source>,
    left: u32,
    dots: bool,
    targets: &mut Vec<Expr<'source>>,
) -> Result<(), Refusal>
    ensures parsed { let table = tokens.old.spans in
        ParsedInto (all (more_step (one_target_by table dots (inner_targets table dots left))) (nodes_in targets.old.items) tokens.old.left)
        (nodes_in targets.new.items) tokens.new.left result }
    ensures spans { KeepsSpans tokens.old tokens.new }
{
    loop {
        match next_target(alloc, tokens, left, dots, targets) {
            Ok(true) => {}
            Ok(false) => return Ok(()),
            Err(refusal) => return Err(refusal),
        }
    }
}

#[cycle(targets)]
#[tactic(auto, using(crate::proofs::Parts::more_targets_next), unfolding(crate::proofs::Opened::more_targets_read))]
fn next_target<'source>(
    alloc: Global,
    tokens: &mut TokenStream<'source>,
    left: u32,
    dots: bool,
    targets: &mut Vec<Expr<'source>>,
) -> Result<bool, Refusal>
    ensures parsed { let table = tokens.old.spans in
        SteppedTo (more_step (one_target_by table dots (inner_targets table dots left)) (nodes_in targets.old.items) tokens.old.left)
        (nodes_in targets.old.items) tokens.old.left (nodes_in targets.new.items) tokens.new.left result }
    ensures spans { KeepsSpans tokens.old tokens.new }
{
    if tokens.skip(Sign::Comma) {
        put(targets, read_target(alloc, tokens, left, dots)?)?;
        Ok(true)
    } else {
        Ok(false)
    }
}

// Whether a comma stands next.
#[tactic(auto, using(crate::proofs::Standing::comma_here, crate::proofs::Standing::comma_none))]
fn begins_more<'source>(tokens: &TokenStream<'source>) -> bool
    ensures { result ≡ begins_symbol comma tokens.now.left }
{
    match tokens.sign() {
        Some(sign) => match sign {
            Sign::Comma => true,
            _ => false,
        },
        None => false,
    }
}

// A name, with the attributes behind it where it may have some.
#[inline(always)]
#[tactic(auto, unfolding(template_compiler_tokens::specs::Steps::and_then, template_compiler_grammar::specs::TemplateReader::path_by))]
fn read_path_target<'source>(
    alloc: Global,
    tokens: &mut TokenStream<'source>,
    dots: bool,
) -> Result<Expr<'source>, Refusal>
    ensures parsed { let table = tokens.old.spans in
        ParsedNode (and_then (stored_by table tokens.old.left) (path_by table dots (next_span table tokens.old.left)))
        tokens.new.left result }
    ensures spans { KeepsSpans tokens.old tokens.new }
{
    let start = tokens.span();
    let name = read_stored(tokens)?;
    if dots {
        read_path(alloc, tokens, name, start)
    } else {
        Ok(name)
    }
}

// The attributes behind a name, which begins at `start`.
#[inline(never)]
fn read_path<'source>(
    alloc: Global,
    tokens: &mut TokenStream<'source>,
    name: Expr<'source>,
    start: Span,
) -> Result<Expr<'source>, Refusal>
    ensures parsed { ParsedNode (all (path_step tokens.old.spans start) (node_of name.entry) tokens.old.left) tokens.new.left result }
    ensures spans { KeepsSpans tokens.old tokens.new }
{
    let mut target = name;
    loop {
        match next_part(tokens) {
            Some(part) => {
                target = Expr::attribute(alloc, target, part, tokens.expand_span(start))?;
            }
            None => return Ok(target),
        }
    }
}

// A dot and a name, where both stand next: the name.
#[tactic(auto, using(crate::proofs::Placed::no_part_word, crate::proofs::Placed::no_part_dot, crate::proofs::Standing::part_word))]
fn next_part<'source>(tokens: &mut TokenStream<'source>) -> Option<&'source str>
    ensures parsed { PassesPart tokens.old.left tokens.new.left result }
    ensures spans { KeepsSpans tokens.old tokens.new }
{
    match tokens.second_word() {
        Some(part) => {
            if tokens.skip(Sign::Dot) {
                tokens.advance();
                Some(part)
            } else {
                None
            }
        }
        None => None,
    }
}

// One target is itself, several are unpacked.
fn unpacked<'source>(
    alloc: Global,
    targets: Vec<Expr<'source>>,
    span: Span,
) -> Result<Expr<'source>, AllocError>
    ensures { IfOk result (λ e. node_of e ≡ unpacked_node (nodes_in targets.entry.items) span) }
{
    let mut targets = targets;
    if targets.len() == 1 {
        if let Some(only) = targets.pop() {
            return Ok(only);
        }
    }
    Expr::list(alloc, targets, span)
}
