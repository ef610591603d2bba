//! Values, and targets with values.
ghost use Rattle.std.specs.Prelude.{◌≡◌, IfOk};
ghost use Rattle.template_compiler_statement_parts.specs.Parsed.{ParsedAs, ParsedInto, ParsedNode, SteppedTo};
ghost use Rattle.template_compiler_grammar.specs.TemplateReaderParts.{more_step};
ghost use Rattle.template_compiler_grammar.specs.Reader.{expression_at};
ghost use Rattle.template_compiler_grammar.specs.TemplateNodes.{together_node};
ghost use Rattle.template_compiler_grammar.specs.TemplateReader.{assignment_by, assignments_by, here, loop_filter_by, value_by, values_by};
ghost use Rattle.template_compiler_grammar.specs.Views.{node_of, nodes_in, optional_node_in, placed_assignments_in};
ghost use Rattle.template_compiler_tokens.specs.Steps.{all};
ghost use Rattle.template_compiler_stream.specs.Spans.{KeepsSpans};

use crate::expressions::ReadsExpressions;
use crate::{expect_assign, put, read_target};
use std::alloc::{AllocError, Global};
use template_compiler_stream::{Refusal, TokenStream};
use template_compiler_tokens::Sign;
use template_compiler_tree::{Expr, Span};

/// Reads an expression, or several with commas between them, which are a tuple.
///
/// ```text
/// total + 1
/// first, second, third
/// ```
///
/// # Errors
///
/// The fault of the token that does not fit, or want of memory.
#[tactic(auto, unfolding(template_compiler_tokens::specs::Steps::and_then, template_compiler_grammar::specs::TemplateReader::values_by))]
pub fn read_values<'source, R: ReadsExpressions>(
    alloc: Global,
    tokens: &mut TokenStream<'source>,
    left: u32,
) -> Result<Expr<'source>, Refusal>
    ensures parsed { let table = tokens.old.spans in
        ParsedNode (values_by table (expression_at table left) tokens.old.left) tokens.new.left result }
    ensures spans { KeepsSpans tokens.old tokens.new }
{
    let span = tokens.span();
    let mut values = Vec::new(alloc);
    read_value::<R>(alloc, tokens, left, &mut values)?;
    all_values::<R>(alloc, tokens, left, &mut values)?;
    together(alloc, values, tokens.expand_span(span)).map_err(Refusal::from)
}

#[tactic(auto, using(template_compiler_grammar::proofs::Pushes::nodes_push), unfolding(crate::proofs::ValuesOpened::value_read))]
fn read_value<'source, R: ReadsExpressions>(
    alloc: Global,
    tokens: &mut TokenStream<'source>,
    left: u32,
    values: &mut Vec<Expr<'source>>,
) -> Result<(), Refusal>
    ensures parsed { let table = tokens.old.spans in
        ParsedInto (value_by table (expression_at table left) (nodes_in values.old.items) tokens.old.left)
        (nodes_in values.new.items) tokens.new.left result }
    ensures spans { KeepsSpans tokens.old tokens.new }
{
    put(values, R::read_expression(alloc, tokens, left)?)
}

fn all_values<'source, R: ReadsExpressions>(
    alloc: Global,
    tokens: &mut TokenStream<'source>,
    left: u32,
    values: &mut Vec<Expr<'source>>,
) -> Result<(), Refusal>
    ensures parsed { let table = tokens.old.spans in
        ParsedInto (all (more_step (value_by table (expression_at table left))) (nodes_in values.old.items) tokens.old.left)
        (nodes_in values.new.items) tokens.new.left result }
    ensures spans { KeepsSpans tokens.old tokens.new }
{
    loop {
        match next_value::<R>(alloc, tokens, left, values) {
            Ok(true) => {}
            Ok(false) => return Ok(()),
            Err(refusal) => return Err(refusal),
        }
    }
}

#[tactic(auto, using(crate::proofs::Standing::no_more), unfolding(crate::proofs::ValuesOpened::more_read))]
fn next_value<'source, R: ReadsExpressions>(
    alloc: Global,
    tokens: &mut TokenStream<'source>,
    left: u32,
    values: &mut Vec<Expr<'source>>,
) -> Result<bool, Refusal>
    ensures parsed { let table = tokens.old.spans in
        SteppedTo (more_step (value_by table (expression_at table left)) (nodes_in values.old.items) tokens.old.left)
        (nodes_in values.old.items) tokens.old.left (nodes_in values.new.items) tokens.new.left result }
    ensures spans { KeepsSpans tokens.old tokens.new }
{
    if tokens.skip(Sign::Comma) {
        read_value::<R>(alloc, tokens, left, values)?;
        Ok(true)
    } else {
        Ok(false)
    }
}

// One value is itself, several are a tuple.
fn together<'source>(
    alloc: Global,
    values: Vec<Expr<'source>>,
    span: Span,
) -> Result<Expr<'source>, AllocError>
    ensures { IfOk result (λ e. node_of e ≡ together_node (nodes_in values.entry.items) span) }
{
    let mut values = values;
    if values.len() == 1 {
        if let Some(only) = values.pop() {
            return Ok(only);
        }
    }
    Expr::tuple(alloc, values, span)
}

/// Reads targets with their values, as in a `with` tag; there may be none.
///
/// ```text
/// a = 1, (b, c) = pair
/// ```
///
/// # Errors
///
/// The fault of the token that does not fit, or want of memory.
#[tactic(auto, using(crate::proofs::ValuesStanding::assignments_next), unfolding(crate::proofs::ValuesOpened::assignments_read))]
pub fn read_assignments<'source, R: ReadsExpressions>(
    alloc: Global,
    tokens: &mut TokenStream<'source>,
    left: u32,
) -> Result<Vec<(Expr<'source>, Expr<'source>)>, Refusal>
    ensures parsed { let table = tokens.old.spans in
        ParsedAs (λ v. placed_assignments_in v.items) (assignments_by table (here table left) tokens.old.left) tokens.new.left result }
    ensures spans { KeepsSpans tokens.old tokens.new }
{
    let mut pairs = Vec::new(alloc);
    if tokens.ends_tag() {
        return Ok(pairs);
    }
    read_assignment::<R>(alloc, tokens, left, &mut pairs)?;
    all_assignments::<R>(alloc, tokens, left, &mut pairs)?;
    Ok(pairs)
}

#[tactic(auto, using(crate::proofs::ValuesStanding::assignment_next), unfolding(crate::proofs::ValuesOpened::assignment_read))]
fn read_assignment<'source, R: ReadsExpressions>(
    alloc: Global,
    tokens: &mut TokenStream<'source>,
    left: u32,
    pairs: &mut Vec<(Expr<'source>, Expr<'source>)>,
) -> Result<(), Refusal>
    ensures parsed { let table = tokens.old.spans in
        ParsedInto (assignment_by table (here table left) (placed_assignments_in pairs.old.items) tokens.old.left)
        (placed_assignments_in pairs.new.items) tokens.new.left result }
    ensures spans { KeepsSpans tokens.old tokens.new }
{
    let target = read_target(alloc, tokens, left, false)?;
    expect_assign(tokens)?;
    let value = R::read_expression(alloc, tokens, left)?;
    put(pairs, (target, value))
}

fn all_assignments<'source, R: ReadsExpressions>(
    alloc: Global,
    tokens: &mut TokenStream<'source>,
    left: u32,
    pairs: &mut Vec<(Expr<'source>, Expr<'source>)>,
) -> Result<(), Refusal>
    ensures parsed { let table = tokens.old.spans in
        ParsedInto (all (more_step (assignment_by table (here table left))) (placed_assignments_in pairs.old.items) tokens.old.left)
        (placed_assignments_in pairs.new.items) tokens.new.left result }
    ensures spans { KeepsSpans tokens.old tokens.new }
{
    loop {
        match next_assignment::<R>(alloc, tokens, left, pairs) {
            Ok(true) => {}
            Ok(false) => return Ok(()),
            Err(refusal) => return Err(refusal),
        }
    }
}

#[tactic(auto, using(crate::proofs::Standing::no_more), unfolding(crate::proofs::ValuesOpened::more_read))]
fn next_assignment<'source, R: ReadsExpressions>(
    alloc: Global,
    tokens: &mut TokenStream<'source>,
    left: u32,
    pairs: &mut Vec<(Expr<'source>, Expr<'source>)>,
) -> Result<bool, Refusal>
    ensures parsed { let table = tokens.old.spans in
        SteppedTo (more_step (assignment_by table (here table left)) (placed_assignments_in pairs.old.items) tokens.old.left)
        (placed_assignments_in pairs.old.items) tokens.old.left (placed_assignments_in pairs.new.items) tokens.new.left result }
    ensures spans { KeepsSpans tokens.old tokens.new }
{
    if tokens.skip(Sign::Comma) {
        read_assignment::<R>(alloc, tokens, left, pairs)?;
        Ok(true)
    } else {
        Ok(false)
    }
}

/// Reads the condition on a loop's items, where one stands next.
///
/// ```text
/// if item.visible
/// ```
///
/// # Errors
///
/// The fault of the token that does not fit, or want of memory.
#[tactic(auto, using(crate::proofs::ValuesPlaced::no_filter), unfolding(crate::proofs::ValuesOpened::filter_read))]
pub fn read_loop_filter<'source, R: ReadsExpressions>(
    alloc: Global,
    tokens: &mut TokenStream<'source>,
    left: u32,
) -> Result<Option<Expr<'source>>, Refusal>
    ensures parsed { let table = tokens.old.spans in
        ParsedAs optional_node_in (loop_filter_by table (expression_at table left) tokens.old.left) tokens.new.left result }
    ensures spans { KeepsSpans tokens.old tokens.new }
{
    if tokens.skip_word("if") {
        let filter = R::read_expression(alloc, tokens, left)?;
        Ok(Some(filter))
    } else {
        Ok(None)
    }
}
