//! Expressions.
ghost use Rattle.std.specs.Prelude.{◌≡◌, true, false, Some, Ok, bytes_eq, codes, suc};
ghost use Rattle.std.specs.Cow.{cow_str_bytes};
ghost use Rattle.template_compiler_expression_parts.specs.Parsed.{Parsed, ParsedAs, ParsedOptional, Stepped, SteppedTo, WentOn, paired_in, unnamed_by, written_in};
ghost use Rattle.template_compiler_stream.specs.Signs.{level_of};
ghost use Rattle.template_compiler_stream.specs.Spans.{KeepsSpans};
ghost use Rattle.template_compiler_tokens.specs.Signs.{symbol_of};
ghost use Rattle.template_compiler_expression_parser.specs.Ahead.{HasNoFilter, HasNoLink, HasNoOperator, begins_sign, choices_from, comparison_from, is_filter_sign, is_link_sign, is_link_word, is_part_sign, is_sum_sign, negative_from, operators_from, sum_from};
ghost use Rattle.template_compiler_grammar.specs.ReaderParts.{colon_end, paren_end};
ghost use Rattle.template_compiler_grammar.specs.Reader.{link_behind, argument_by, arguments_by, arguments_step, binary_by, bound_by, deeper, else_behind, expression_by, filter_by, filter_step, if_behind, is_by, items_step, link_step, list_by, map_by, negation_by, not_in_link, operand_by, operand_step, optional_arguments_by, paren_by, part_step, parts_by, pairs_step, power_behind, power_by, primary_by, slice_by, step_by, subscript_by, terms_by, test_arguments_by, test_by, through_next, unary_by, up_to};
ghost use Rattle.template_compiler_grammar.specs.Nodes.{first_node, given_node, no_placed_links, no_placed_pairs, no_placed_written, node};
ghost use Rattle.template_compiler_grammar.specs.Views.{node_of, nodes_in, optional_node_in, placed_argument_of, placed_arguments_in, placed_links_in};
ghost use Rattle.template_compiler_tree.specs.ExpressionPlaces.{places_of};
ghost use Rattle.template_compiler_tree.specs.NodePlaces.{parts_more};
ghost use Rattle.template_compiler_grammar.specs.Words.{disjunction};
ghost use Rattle.template_compiler_tokens.specs.Steps.{and_then, all, goes, under};
ghost use Rattle.template_compiler_tree.specs.Tree.{call, tuple_literal};
ghost use Rattle.template_compiler_tree.specs.View.{expression_of};

use std::alloc::Global;
use std::borrow::CowStr;
use template_compiler_expression_parts::{
    Behind, Pairs, Written, attribute, before_colon, compared, deeper, in_braces, in_brackets,
    in_order, in_parens, literal, name, separated, tested,
};
use template_compiler_stream::{Level, Refusal, TokenStream};
use template_compiler_tokens::Sign;
use template_compiler_tree::{
    BinOpKind, CallArg, CompareOp, CompareOpKind, Expr, Span, UnaryOpKind,
};

// An expression, with so many nesting levels left. Most are operands that are alone, or ones behind which no word stands.
#[cycle(parser)]
pub(crate) fn expression<'source>(
    alloc: Global,
    tokens: &mut TokenStream<'source>,
    left: u32,
) -> Result<Expr<'source>, Refusal>
    ensures parsed { let table = tokens.old.spans in
        Parsed (expression_by table (deeper table left) tokens.old.left) tokens.new.left result }
    ensures spans { KeepsSpans tokens.old tokens.new }
{
    if tokens.begins_alone() {
        return literal(alloc, tokens);
    }
    let span = tokens.span();
    let first = negation(alloc, tokens, left);
    if tokens.word().is_none() {
        return first;
    }
    choice(alloc, tokens, left, first?, span)
}

// Behind the first operand of an expression: those of `and` and of `or`, and the branches.
#[cycle(parser)]
#[tactic(auto, unfolding(template_compiler_tokens::specs::Steps::and_then, template_compiler_grammar::specs::Reader::if_behind, template_compiler_grammar::specs::Reader::deeper))]
#[inline(never)]
fn choice<'source>(
    alloc: Global,
    tokens: &mut TokenStream<'source>,
    left: u32,
    first: Expr<'source>,
    span: Span,
) -> Result<Expr<'source>, Refusal>
    ensures parsed { let table = tokens.old.spans in let r = deeper table left in
        Parsed (and_then (choices_from table r span (node_of first.entry) tokens.old.left) (if_behind table r span)) tokens.new.left
        result }
    ensures spans { KeepsSpans tokens.old tokens.new }
{
    let value = operands(alloc, tokens, left, Level::Conjunction, first, span)?;
    let value = operands(alloc, tokens, left, Level::Disjunction, value, span)?;
    if tokens.skip_word("if") {
        branches(alloc, tokens, deeper(left)?, value, span)
    } else {
        Ok(value)
    }
}

// Behind `if`: the condition, and the other branch where there is one.
#[cycle(parser)]
#[tactic(auto, unfolding(template_compiler_tokens::specs::Steps::and_then, template_compiler_grammar::specs::Reader::else_behind, template_compiler_grammar::specs::Reader::deeper))]
#[inline(never)]
fn branches<'source>(
    alloc: Global,
    tokens: &mut TokenStream<'source>,
    left: u32,
    value: Expr<'source>,
    span: Span,
) -> Result<Expr<'source>, Refusal>
    ensures parsed { let table = tokens.old.spans in
        Parsed (and_then (binary_by table (deeper table left) disjunction tokens.old.left) (else_behind table (deeper table (suc left)) span
        (node_of value.entry))) tokens.new.left result }
    ensures spans { KeepsSpans tokens.old tokens.new }
{
    let test = binary(alloc, tokens, left, Level::Disjunction)?;
    let other = if tokens.skip_word("else") {
        Some(expression(alloc, tokens, left)?)
    } else {
        None
    };
    Expr::conditional(alloc, test, value, other, tokens.expand_span(span)).map_err(Refusal::from)
}

// Operands with the operators of a level between them. Most are alone, and go through no level below.
#[cycle(parser)]
#[tactic(auto, unfolding(template_compiler_tokens::specs::Steps::and_then, template_compiler_grammar::specs::Reader::binary_by, template_compiler_grammar::specs::Reader::binary_of))]
pub(crate) fn binary<'source>(
    alloc: Global,
    tokens: &mut TokenStream<'source>,
    left: u32,
    level: Level,
) -> Result<Expr<'source>, Refusal>
    ensures parsed { let table = tokens.old.spans in
        Parsed (binary_by table (deeper table left) (level_of level) tokens.old.left) tokens.new.left result }
    ensures spans { KeepsSpans tokens.old tokens.new }
{
    if tokens.begins_alone() {
        return literal(alloc, tokens);
    }
    let span = tokens.span();
    let value = operand(alloc, tokens, left, level)?;
    operands(alloc, tokens, left, level, value, span)
}

// Behind a value: the operators of a level, each with its right side.
#[cycle(parser)]
#[inline(always)]
fn operands<'source>(
    alloc: Global,
    tokens: &mut TokenStream<'source>,
    left: u32,
    level: Level,
    value: Expr<'source>,
    span: Span,
) -> Result<Expr<'source>, Refusal>
    ensures parsed { let table = tokens.old.spans in
        Parsed (all (operand_step table (level_of level) (operand_by table (deeper table left) (level_of level)) span) (node_of value.entry)
        tokens.old.left) tokens.new.left result }
    ensures spans { KeepsSpans tokens.old tokens.new }
{
    let mut value = value;
    while let Some(op) = tokens.skip_operator(level) {
        let right = match operand(alloc, tokens, left, level) {
            Ok(right) => right,
            Err(refusal) => return Err(refusal),
        };
        value = Expr::binary(alloc, op, value, right, tokens.expand_span(span))?;
    }
    Ok(value)
}

#[cycle(parser)]
#[tactic(auto, unfolding(template_compiler_grammar::specs::Reader::operand_by, template_compiler_grammar::specs::Reader::binary_by))]
#[inline(always)]
fn operand<'source>(
    alloc: Global,
    tokens: &mut TokenStream<'source>,
    left: u32,
    level: Level,
) -> Result<Expr<'source>, Refusal>
    ensures parsed { let table = tokens.old.spans in
        Parsed (operand_by table (deeper table left) (level_of level) tokens.old.left) tokens.new.left result }
    ensures spans { KeepsSpans tokens.old tokens.new }
{
    match level {
        Level::Factors => power(alloc, tokens, left),
        Level::Texts => binary(alloc, tokens, left, Level::Factors),
        Level::Terms => binary(alloc, tokens, left, Level::Texts),
        Level::Conjunction => negation(alloc, tokens, left),
        Level::Disjunction => binary(alloc, tokens, left, Level::Conjunction),
    }
}

// A sum. Most are one operand, and go through no level of its operators.
#[cycle(parser)]
fn sum<'source>(
    alloc: Global,
    tokens: &mut TokenStream<'source>,
    left: u32,
) -> Result<Expr<'source>, Refusal>
    ensures parsed { let table = tokens.old.spans in
        Parsed (terms_by table (deeper table left) tokens.old.left) tokens.new.left result }
    ensures spans { KeepsSpans tokens.old tokens.new }
{
    if tokens.begins_alone() {
        return literal(alloc, tokens);
    }
    let span = tokens.span();
    let first = power(alloc, tokens, left);
    if !begins_sum(tokens) {
        return first;
    }
    sum_behind(alloc, tokens, left, first?, span)
}

// Behind the first operand of a sum: those of its operators, from the tightest on.
#[cycle(parser)]
#[tactic(auto, unfolding(template_compiler_tokens::specs::Steps::and_then))]
#[inline(always)]
fn sum_behind<'source>(
    alloc: Global,
    tokens: &mut TokenStream<'source>,
    left: u32,
    first: Expr<'source>,
    span: Span,
) -> Result<Expr<'source>, Refusal>
    ensures parsed { let table = tokens.old.spans in
        Parsed (sum_from table (deeper table left) span (node_of first.entry) tokens.old.left) tokens.new.left result }
    ensures spans { KeepsSpans tokens.old tokens.new }
{
    let value = operands(alloc, tokens, left, Level::Factors, first, span)?;
    let value = operands(alloc, tokens, left, Level::Texts, value, span)?;
    operands(alloc, tokens, left, Level::Terms, value, span)
}

// Whether an operator of a sum stands next.
fn begins_sum(tokens: &TokenStream) -> bool
    ensures { result ≡ begins_sign is_sum_sign tokens.now.left }
{
    match tokens.sign() {
        Some(sign) => is_sum_sign(sign),
        None => false,
    }
}

fn is_sum_sign(sign: Sign) -> bool
    ensures { result ≡ is_sum_sign (symbol_of sign) }
{
    match sign {
        Sign::Plus
        | Sign::Minus
        | Sign::Mul
        | Sign::Div
        | Sign::FloorDiv
        | Sign::Mod
        | Sign::Tilde => true,
        _ => false,
    }
}

// A `not`, or an unary with operators behind it, comparisons the loosest. Most have none.
#[cycle(parser)]
#[tactic(auto, unfolding(template_compiler_tokens::specs::Steps::and_then, template_compiler_grammar::specs::Reader::negation_by, template_compiler_grammar::specs::Reader::deeper))]
fn negation<'source>(
    alloc: Global,
    tokens: &mut TokenStream<'source>,
    left: u32,
) -> Result<Expr<'source>, Refusal>
    ensures parsed { let table = tokens.old.spans in
        Parsed (negation_by table (deeper table left) tokens.old.left) tokens.new.left result }
    ensures spans { KeepsSpans tokens.old tokens.new }
{
    let span = tokens.span();
    if tokens.skip_word("not") {
        let operand = match negation(alloc, tokens, deeper(left)?) {
            Ok(operand) => operand,
            Err(refusal) => return Err(refusal),
        };
        return Ok(Expr::unary(alloc, UnaryOpKind::Not, operand, tokens.expand_span(span))?);
    }
    let first = unary(alloc, tokens, left);
    if !begins_operator(tokens) {
        return first;
    }
    operators(alloc, tokens, left, first?, span)
}

// The operators behind the first operand of a comparison, from the tightest on.
#[cycle(parser)]
#[tactic(auto, unfolding(template_compiler_tokens::specs::Steps::and_then))]
#[inline(never)]
fn operators<'source>(
    alloc: Global,
    tokens: &mut TokenStream<'source>,
    left: u32,
    first: Expr<'source>,
    span: Span,
) -> Result<Expr<'source>, Refusal>
    ensures parsed { let table = tokens.old.spans in
        Parsed (operators_from table (deeper table left) span (node_of first.entry) tokens.old.left) tokens.new.left result }
    ensures spans { KeepsSpans tokens.old tokens.new }
{
    let value = power_behind(alloc, tokens, left, first, span)?;
    let value = sum_behind(alloc, tokens, left, value, span)?;
    if begins_link(tokens) {
        comparison_behind(alloc, tokens, left, value, span)
    } else {
        Ok(value)
    }
}

// Whether an operator may stand next: where none does, no comparison goes on.
fn begins_operator(tokens: &TokenStream) -> bool
    ensures { (result ≡ false) → HasNoOperator tokens.now.left }
{
    if begins_filter(tokens) {
        return true;
    }
    if begins_sum(tokens) {
        return true;
    }
    begins_link(tokens)
}

// The comparisons behind a sum.
#[cycle(parser)]
#[tactic(auto, unfolding(template_compiler_tokens::specs::Steps::and_then))]
#[inline(never)]
fn comparison_behind<'source>(
    alloc: Global,
    tokens: &mut TokenStream<'source>,
    left: u32,
    first: Expr<'source>,
    span: Span,
) -> Result<Expr<'source>, Refusal>
    ensures parsed { let table = tokens.old.spans in
        Parsed (comparison_from table (deeper table left) span (node_of first.entry) tokens.old.left) tokens.new.left result }
    ensures spans { KeepsSpans tokens.old tokens.new }
{
    let links = links(alloc, tokens, left)?;
    compared(alloc, first, links, tokens.expand_span(span)).map_err(Refusal::from)
}

// Whether a comparison stands next, or a `not`.
#[tactic(auto, using(crate::proofs::Stays::sign_links, crate::proofs::Stays::word_links, crate::proofs::Stays::nothing_links))]
fn begins_link(tokens: &TokenStream) -> bool
    ensures { (result ≡ false) → HasNoLink tokens.now.left }
{
    match tokens.sign() {
        Some(sign) => is_link_sign(sign),
        None => match tokens.word() {
            Some(word) => is_link_word(word),
            None => false,
        },
    }
}

fn is_link_word(word: &str) -> bool
    ensures { result ≡ is_link_word word.now }
{
    word == "in" || word == "not"
}

fn is_link_sign(sign: Sign) -> bool
    ensures { result ≡ is_link_sign (symbol_of sign) }
{
    match sign {
        Sign::Eq | Sign::Ne | Sign::Gt | Sign::Gte | Sign::Lt | Sign::Lte => true,
        _ => false,
    }
}

#[cycle(parser)]
fn links<'source>(
    alloc: Global,
    tokens: &mut TokenStream<'source>,
    left: u32,
) -> Result<Vec<CompareOp<'source>>, Refusal>
    ensures parsed { let table = tokens.old.spans in
        ParsedAs (λ v. placed_links_in v.items) (all (link_step table (terms_by table (deeper table left))) no_placed_links tokens.old.left)
        tokens.new.left result }
    ensures spans { KeepsSpans tokens.old tokens.new }
{
    let mut links = Vec::new(alloc);
    loop {
        match next_link(alloc, tokens, left, &mut links) {
            Ok(true) => {}
            Ok(false) => return Ok(links),
            Err(refusal) => return Err(refusal),
        }
    }
}

#[cycle(parser)]
#[tactic(auto, using(crate::proofs::Links::link_found, crate::proofs::Links::link_not, crate::proofs::Links::link_none))]
fn next_link<'source>(
    alloc: Global,
    tokens: &mut TokenStream<'source>,
    left: u32,
    links: &mut Vec<CompareOp<'source>>,
) -> Result<bool, Refusal>
    ensures parsed { let table = tokens.old.spans in
        SteppedTo (link_step table (terms_by table (deeper table left)) (placed_links_in links.old.items) tokens.old.left) (placed_links_in
        links.old.items) tokens.old.left (placed_links_in links.new.items) tokens.new.left result }
    ensures spans { KeepsSpans tokens.old tokens.new }
{
    match tokens.skip_comparison() {
        Some(op) => put_link(alloc, tokens, left, op, links),
        None => {
            if tokens.skip_word("not") {
                next_not_in(alloc, tokens, left, links)
            } else {
                Ok(false)
            }
        }
    }
}

// Behind a comparison: its right side.
#[cycle(parser)]
#[tactic(auto, using(template_compiler_grammar::proofs::Pushes::placed_links_push), unfolding(template_compiler_tokens::specs::Steps::under, template_compiler_grammar::specs::Reader::link_behind, template_compiler_grammar::specs::Reader::terms_by, template_compiler_grammar::specs::Reader::binary_by, template_compiler_grammar::specs::Reader::operand_by))]
fn put_link<'source>(
    alloc: Global,
    tokens: &mut TokenStream<'source>,
    left: u32,
    op: CompareOpKind,
    links: &mut Vec<CompareOp<'source>>,
) -> Result<bool, Refusal>
    ensures parsed { let table = tokens.old.spans in
        SteppedTo (link_behind table (Some op) false (terms_by table (deeper table left)) (placed_links_in links.old.items) tokens.old.left)
        (placed_links_in links.old.items) tokens.old.left (placed_links_in links.new.items) tokens.new.left result }
    ensures spans { KeepsSpans tokens.old tokens.new }
{
    let right = match sum(alloc, tokens, left) {
        Ok(right) => right,
        Err(refusal) => return Err(refusal),
    };
    links.push(CompareOp { op, expr: right })?;
    Ok(true)
}

// Behind the `not` of a `not in`.
#[cycle(parser)]
#[tactic(auto, unfolding(template_compiler_tokens::specs::Steps::under, template_compiler_grammar::specs::Reader::link_behind, template_compiler_grammar::specs::Reader::not_in_link))]
fn next_not_in<'source>(
    alloc: Global,
    tokens: &mut TokenStream<'source>,
    left: u32,
    links: &mut Vec<CompareOp<'source>>,
) -> Result<bool, Refusal>
    ensures parsed { let table = tokens.old.spans in
        SteppedTo (not_in_link table (terms_by table (deeper table left)) (placed_links_in links.old.items) tokens.old.left)
        (placed_links_in links.old.items) tokens.old.left (placed_links_in links.new.items) tokens.new.left result }
    ensures spans { KeepsSpans tokens.old tokens.new }
{
    if tokens.skip_word("in") {
        put_link(alloc, tokens, left, CompareOpKind::NotIn, links)
    } else {
        Err(Refusal::Token(tokens.fault()))
    }
}

// An unary, with filters and tests, and a power behind it. Most have none.
#[cycle(parser)]
fn power<'source>(
    alloc: Global,
    tokens: &mut TokenStream<'source>,
    left: u32,
) -> Result<Expr<'source>, Refusal>
    ensures parsed { let table = tokens.old.spans in
        Parsed (power_by table (deeper table left) tokens.old.left) tokens.new.left result }
    ensures spans { KeepsSpans tokens.old tokens.new }
{
    let span = tokens.span();
    let first = unary(alloc, tokens, left);
    if !begins_filter(tokens) {
        return first;
    }
    power_behind(alloc, tokens, left, first?, span)
}

// Filters and tests behind an unary, and a power behind these.
#[cycle(parser)]
#[tactic(auto, unfolding(template_compiler_tokens::specs::Steps::and_then, template_compiler_grammar::specs::Reader::power_behind, template_compiler_grammar::specs::Reader::deeper))]
#[inline(always)]
fn power_behind<'source>(
    alloc: Global,
    tokens: &mut TokenStream<'source>,
    left: u32,
    first: Expr<'source>,
    span: Span,
) -> Result<Expr<'source>, Refusal>
    ensures parsed { let table = tokens.old.spans in let r = deeper table left in
        Parsed (and_then (all (filter_step table r span) (node_of first.entry) tokens.old.left) (power_behind table r span))
        tokens.new.left result }
    ensures spans { KeepsSpans tokens.old tokens.new }
{
    let value = filters(alloc, tokens, left, first, span)?;
    if tokens.skip(Sign::Pow) {
        let right = power(alloc, tokens, deeper(left)?)?;
        Ok(Expr::binary(
            alloc,
            BinOpKind::Pow,
            value,
            right,
            tokens.expand_span(span),
        )?)
    } else {
        Ok(value)
    }
}

// Whether a filter, a test or a power stands next.
#[tactic(auto, using(crate::proofs::Stays::sign_filters, crate::proofs::Stays::word_filters, crate::proofs::Stays::nothing_filters))]
fn begins_filter(tokens: &TokenStream) -> bool
    ensures { (result ≡ false) → HasNoFilter tokens.now.left }
{
    match tokens.sign() {
        Some(sign) => is_filter_sign(sign),
        None => match tokens.word() {
            Some(word) => is_test_word(word),
            None => false,
        },
    }
}

fn is_test_word(word: &str) -> bool
    ensures { result ≡ bytes_eq (codes "is") word.now }
{
    word == "is"
}

fn is_filter_sign(sign: Sign) -> bool
    ensures { result ≡ is_filter_sign (symbol_of sign) }
{
    match sign {
        Sign::Pipe | Sign::Pow => true,
        _ => false,
    }
}

#[cycle(parser)]
#[inline(always)]
fn filters<'source>(
    alloc: Global,
    tokens: &mut TokenStream<'source>,
    left: u32,
    value: Expr<'source>,
    span: Span,
) -> Result<Expr<'source>, Refusal>
    ensures parsed { let table = tokens.old.spans in
        Parsed (all (filter_step table (deeper table left) span) (node_of value.entry) tokens.old.left) tokens.new.left result }
    ensures spans { KeepsSpans tokens.old tokens.new }
{
    let mut value = value;
    loop {
        match next_filter(alloc, tokens, left, value, span) {
            Ok(Behind::Goes(next)) => value = next,
            Ok(Behind::Stops(end)) => return Ok(end),
            Err(refusal) => return Err(refusal),
        }
    }
}

#[cycle(parser)]
#[tactic(auto, using(template_compiler_expression_parts::proofs::Rounds::filter_none), unfolding(template_compiler_tokens::specs::Steps::under, template_compiler_grammar::specs::Reader::filter_step))]
#[inline(always)]
fn next_filter<'source>(
    alloc: Global,
    tokens: &mut TokenStream<'source>,
    left: u32,
    value: Expr<'source>,
    span: Span,
) -> Result<Behind<'source>, Refusal>
    ensures parsed { let table = tokens.old.spans in
        Stepped (filter_step table (deeper table left) span (node_of value.entry) tokens.old.left) (node_of value.entry) tokens.old.left
        tokens.new.left result }
    ensures spans { KeepsSpans tokens.old tokens.new }
{
    if tokens.skip(Sign::Pipe) {
        piped(alloc, tokens, left, value, span).map(Behind::Goes)
    } else if tokens.skip_word("is") {
        asked(alloc, tokens, left, value, span).map(Behind::Goes)
    } else {
        Ok(Behind::Stops(value))
    }
}

// Behind `|`: a filter, with the parts of its result.
#[cycle(parser)]
#[tactic(auto, unfolding(template_compiler_tokens::specs::Steps::and_then, template_compiler_grammar::specs::Reader::parts_by))]
#[inline(never)]
fn piped<'source>(
    alloc: Global,
    tokens: &mut TokenStream<'source>,
    left: u32,
    value: Expr<'source>,
    span: Span,
) -> Result<Expr<'source>, Refusal>
    ensures parsed { let table = tokens.old.spans in
        Parsed (and_then (filter_by table (deeper table left) span (given_node (node_of value.entry)) tokens.old.left) (parts_by table
        (deeper table left) span)) tokens.new.left result }
    ensures spans { KeepsSpans tokens.old tokens.new }
{
    let filtered = filter(alloc, tokens, left, Some(value), span)?;
    parts(alloc, tokens, left, filtered, span)
}

// A filter's name and its arguments.
#[cycle(parser)]
#[tactic(auto, unfolding(template_compiler_tokens::specs::Steps::and_then, template_compiler_grammar::specs::Reader::filter_by))]
pub(crate) fn filter<'source>(
    alloc: Global,
    tokens: &mut TokenStream<'source>,
    left: u32,
    value: Option<Expr<'source>>,
    span: Span,
) -> Result<Expr<'source>, Refusal>
    ensures parsed { let table = tokens.old.spans in
        Parsed (filter_by table (deeper table left) span (optional_node_in value.entry) tokens.old.left) tokens.new.left result }
    ensures spans { KeepsSpans tokens.old tokens.new }
{
    let name = name(alloc, tokens)?;
    let arguments = optional_arguments(alloc, tokens, left)?;
    Expr::filtered(alloc, name, value, arguments, tokens.expand_span(span)).map_err(Refusal::from)
}

// Arguments in parentheses, where a `(` stands next.
#[cycle(parser)]
#[tactic(auto, using(template_compiler_expression_parts::proofs::Nothing::no_arguments_list), unfolding(template_compiler_grammar::specs::Reader::optional_arguments_by, template_compiler_grammar::specs::Reader::deeper))]
fn optional_arguments<'source>(
    alloc: Global,
    tokens: &mut TokenStream<'source>,
    left: u32,
) -> Result<Vec<CallArg<'source>>, Refusal>
    ensures parsed { let table = tokens.old.spans in
        ParsedAs (λ v. placed_arguments_in v.items) (optional_arguments_by table (deeper table left) tokens.old.left) tokens.new.left
        result }
    ensures spans { KeepsSpans tokens.old tokens.new }
{
    if tokens.skip(Sign::ParenOpen) {
        arguments(alloc, tokens, deeper(left)?)
    } else {
        Ok(Vec::new(alloc))
    }
}

// Behind `is`.
#[cycle(parser)]
#[tactic(auto, using(template_compiler_expression_parts::proofs::Rounds::is_not, template_compiler_expression_parts::proofs::Rounds::is_plain))]
#[inline(never)]
fn asked<'source>(
    alloc: Global,
    tokens: &mut TokenStream<'source>,
    left: u32,
    value: Expr<'source>,
    span: Span,
) -> Result<Expr<'source>, Refusal>
    ensures parsed { let table = tokens.old.spans in
        Parsed (is_by table (deeper table left) span (node_of value.entry) tokens.old.left) tokens.new.left result }
    ensures spans { KeepsSpans tokens.old tokens.new }
{
    let negated = tokens.skip_word("not");
    test(alloc, tokens, left, negated, value, span)
}

// A test's name and its arguments, with the parts behind it.
#[cycle(parser)]
#[tactic(auto, unfolding(template_compiler_tokens::specs::Steps::and_then, template_compiler_grammar::specs::Reader::test_by))]
fn test<'source>(
    alloc: Global,
    tokens: &mut TokenStream<'source>,
    left: u32,
    negated: bool,
    value: Expr<'source>,
    span: Span,
) -> Result<Expr<'source>, Refusal>
    ensures parsed { let table = tokens.old.spans in
        Parsed (test_by table (deeper table left) negated span (node_of value.entry) tokens.old.left) tokens.new.left result }
    ensures spans { KeepsSpans tokens.old tokens.new }
{
    let name = name(alloc, tokens)?;
    if tokens.begins_argument() {
        bare_test(alloc, tokens, left, negated, name, value, span)
    } else {
        plain_test(alloc, tokens, left, negated, name, value, span)
    }
}

// A test with one argument, which stands without parentheses.
#[cycle(parser)]
#[tactic(auto, unfolding(template_compiler_tokens::specs::Steps::and_then, template_compiler_grammar::specs::Reader::test_arguments_by))]
#[inline(never)]
fn bare_test<'source>(
    alloc: Global,
    tokens: &mut TokenStream<'source>,
    left: u32,
    negated: bool,
    name: CowStr<'source>,
    value: Expr<'source>,
    span: Span,
) -> Result<Expr<'source>, Refusal>
    ensures parsed { let table = tokens.old.spans in
        Parsed (test_arguments_by table (deeper table left) true negated span (node_of value.entry) (cow_str_bytes name.entry)
        tokens.old.left) tokens.new.left result }
    ensures spans { KeepsSpans tokens.old tokens.new }
{
    let argument = unary(alloc, tokens, left)?;
    let mut arguments = Vec::new(alloc);
    arguments.push(CallArg::Pos(argument))?;
    Ok(tested(
        alloc,
        negated,
        name,
        value,
        arguments,
        tokens.expand_span(span),
    )?)
}

// A test with arguments in parentheses, or with none.
#[cycle(parser)]
#[tactic(auto, unfolding(template_compiler_tokens::specs::Steps::and_then, template_compiler_grammar::specs::Reader::test_arguments_by, template_compiler_grammar::specs::Reader::parts_by))]
#[inline(never)]
fn plain_test<'source>(
    alloc: Global,
    tokens: &mut TokenStream<'source>,
    left: u32,
    negated: bool,
    name: CowStr<'source>,
    value: Expr<'source>,
    span: Span,
) -> Result<Expr<'source>, Refusal>
    ensures parsed { let table = tokens.old.spans in
        Parsed (test_arguments_by table (deeper table left) false negated span (node_of value.entry) (cow_str_bytes name.entry)
        tokens.old.left) tokens.new.left result }
    ensures spans { KeepsSpans tokens.old tokens.new }
{
    let arguments = optional_arguments(alloc, tokens, left)?;
    let test = tested(
        alloc,
        negated,
        name,
        value,
        arguments,
        tokens.expand_span(span),
    )?;
    parts(alloc, tokens, left, test, span)
}

// A minus, or a primary with its parts. Many have none.
#[cycle(parser)]
#[tactic(auto, unfolding(template_compiler_tokens::specs::Steps::and_then, template_compiler_grammar::specs::Reader::unary_by, template_compiler_grammar::specs::Reader::deeper))]
#[inline(always)]
fn unary<'source>(
    alloc: Global,
    tokens: &mut TokenStream<'source>,
    left: u32,
) -> Result<Expr<'source>, Refusal>
    ensures parsed { let table = tokens.old.spans in
        Parsed (unary_by table (deeper table left) tokens.old.left) tokens.new.left result }
    ensures spans { KeepsSpans tokens.old tokens.new }
{
    let span = tokens.span();
    if tokens.skip(Sign::Minus) {
        return negative(alloc, tokens, deeper(left)?, span);
    }
    let first = primary(alloc, tokens, left);
    if !begins_part(tokens) {
        return first;
    }
    parts(alloc, tokens, left, first?, span)
}

// Behind a minus.
#[cycle(parser)]
#[tactic(auto, unfolding(template_compiler_tokens::specs::Steps::and_then))]
#[inline(never)]
fn negative<'source>(
    alloc: Global,
    tokens: &mut TokenStream<'source>,
    left: u32,
    span: Span,
) -> Result<Expr<'source>, Refusal>
    ensures parsed { let table = tokens.old.spans in
        Parsed (negative_from table (deeper table left) span tokens.old.left) tokens.new.left result }
    ensures spans { KeepsSpans tokens.old tokens.new }
{
    let operand = unary(alloc, tokens, left)?;
    Ok(Expr::unary(alloc, UnaryOpKind::Neg, operand, tokens.expand_span(span))?)
}

// Whether what begins a part stands next.
fn begins_part(tokens: &TokenStream) -> bool
    ensures { result ≡ begins_sign is_part_sign tokens.now.left }
{
    match tokens.sign() {
        Some(sign) => is_part_sign(sign),
        None => false,
    }
}

fn is_part_sign(sign: Sign) -> bool
    ensures { result ≡ is_part_sign (symbol_of sign) }
{
    match sign {
        Sign::Dot | Sign::BracketOpen | Sign::ParenOpen => true,
        _ => false,
    }
}

#[cycle(parser)]
#[inline(never)]
fn parts<'source>(
    alloc: Global,
    tokens: &mut TokenStream<'source>,
    left: u32,
    value: Expr<'source>,
    span: Span,
) -> Result<Expr<'source>, Refusal>
    ensures parsed { let table = tokens.old.spans in
        Parsed (all (part_step table (deeper table left) span) (node_of value.entry) tokens.old.left) tokens.new.left result }
    ensures spans { KeepsSpans tokens.old tokens.new }
{
    let mut value = value;
    loop {
        match next_part(alloc, tokens, left, value, span) {
            Ok(Behind::Goes(next)) => value = next,
            Ok(Behind::Stops(end)) => return Ok(end),
            Err(refusal) => return Err(refusal),
        }
    }
}

#[cycle(parser)]
#[tactic(auto, using(template_compiler_expression_parts::proofs::Rounds::part_none), unfolding(template_compiler_tokens::specs::Steps::under, template_compiler_grammar::specs::Reader::part_step, template_compiler_grammar::specs::Reader::deeper))]
#[inline(always)]
fn next_part<'source>(
    alloc: Global,
    tokens: &mut TokenStream<'source>,
    left: u32,
    value: Expr<'source>,
    span: Span,
) -> Result<Behind<'source>, Refusal>
    ensures parsed { let table = tokens.old.spans in
        Stepped (part_step table (deeper table left) span (node_of value.entry) tokens.old.left) (node_of value.entry) tokens.old.left
        tokens.new.left result }
    ensures spans { KeepsSpans tokens.old tokens.new }
{
    if tokens.skip(Sign::Dot) {
        attribute(alloc, tokens, value, span).map(Behind::Goes)
    } else if tokens.skip(Sign::BracketOpen) {
        subscript(alloc, tokens, deeper(left)?, value, span).map(Behind::Goes)
    } else if tokens.skip(Sign::ParenOpen) {
        call(alloc, tokens, deeper(left)?, value, span).map(Behind::Goes)
    } else {
        Ok(Behind::Stops(value))
    }
}

// Behind the `(` of a call.
#[cycle(parser)]
#[tactic(auto, unfolding(template_compiler_tokens::specs::Steps::under))]
#[inline(never)]
fn call<'source>(
    alloc: Global,
    tokens: &mut TokenStream<'source>,
    left: u32,
    value: Expr<'source>,
    span: Span,
) -> Result<Expr<'source>, Refusal>
    ensures parsed { let table = tokens.old.spans in
        WentOn (under (arguments_by table (expression_by table (deeper table left)) tokens.old.left) (λ args us. goes (node (call
        (expression_of value.entry) args.tree) (up_to table span us) (parts_more (places_of value.entry) args.places)) us)) tokens.new.left
        result }
    ensures spans { KeepsSpans tokens.old tokens.new }
{
    let arguments = arguments(alloc, tokens, left)?;
    Expr::call(alloc, value, arguments, tokens.expand_span(span)).map_err(Refusal::from)
}

// Behind the `[` of an item or a slice.
#[cycle(parser)]
#[tactic(auto, using(template_compiler_expression_parts::proofs::Nothing::a_key, template_compiler_expression_parts::proofs::Nothing::no_key), unfolding(template_compiler_tokens::specs::Steps::and_then, template_compiler_grammar::specs::Reader::subscript_by, template_compiler_grammar::specs::Reader::subscript_behind))]
fn subscript<'source>(
    alloc: Global,
    tokens: &mut TokenStream<'source>,
    left: u32,
    value: Expr<'source>,
    span: Span,
) -> Result<Expr<'source>, Refusal>
    ensures parsed { let table = tokens.old.spans in
        Parsed (subscript_by table (expression_by table (deeper table left)) span (node_of value.entry) tokens.old.left) tokens.new.left
        result }
    ensures spans { KeepsSpans tokens.old tokens.new }
{
    let start = bound(alloc, tokens, left)?;
    if tokens.skip(Sign::Colon) {
        return slice(alloc, tokens, left, value, start, span);
    }
    let span = tokens.span_through_next(span);
    match start {
        Some(key) => in_brackets(tokens, Expr::item(alloc, value, key, span)?),
        None => Err(Refusal::Token(tokens.fault())),
    }
}

// Behind the first colon of a slice.
#[cycle(parser)]
#[tactic(auto, unfolding(template_compiler_tokens::specs::Steps::and_then, template_compiler_grammar::specs::Reader::slice_by))]
#[inline(never)]
fn slice<'source>(
    alloc: Global,
    tokens: &mut TokenStream<'source>,
    left: u32,
    value: Expr<'source>,
    start: Option<Expr<'source>>,
    span: Span,
) -> Result<Expr<'source>, Refusal>
    ensures parsed { let table = tokens.old.spans in
        Parsed (slice_by table (expression_by table (deeper table left)) span (node_of value.entry) (optional_node_in start.entry)
        tokens.old.left) tokens.new.left result }
    ensures spans { KeepsSpans tokens.old tokens.new }
{
    let stop = bound(alloc, tokens, left)?;
    let step = step(alloc, tokens, left)?;
    let span = tokens.span_through_next(span);
    in_brackets(tokens, Expr::slice(alloc, value, start, stop, step, span)?)
}

// A bound of a slice, where it is not left out.
#[cycle(parser)]
#[tactic(auto, unfolding(template_compiler_tokens::specs::Steps::and_then, template_compiler_grammar::specs::Reader::bound_by))]
fn bound<'source>(
    alloc: Global,
    tokens: &mut TokenStream<'source>,
    left: u32,
) -> Result<Option<Expr<'source>>, Refusal>
    ensures parsed { let table = tokens.old.spans in
        ParsedOptional (bound_by table (expression_by table (deeper table left)) tokens.old.left) tokens.new.left result }
    ensures spans { KeepsSpans tokens.old tokens.new }
{
    if tokens.ends_bound() {
        Ok(None)
    } else {
        expression(alloc, tokens, left).map(Some)
    }
}

// The step of a slice, where a second colon stands next.
#[cycle(parser)]
#[tactic(auto, using(template_compiler_expression_parts::proofs::Nothing::no_step), unfolding(template_compiler_grammar::specs::Reader::step_by))]
fn step<'source>(
    alloc: Global,
    tokens: &mut TokenStream<'source>,
    left: u32,
) -> Result<Option<Expr<'source>>, Refusal>
    ensures parsed { let table = tokens.old.spans in
        ParsedOptional (step_by table (expression_by table (deeper table left)) tokens.old.left) tokens.new.left result }
    ensures spans { KeepsSpans tokens.old tokens.new }
{
    if tokens.skip(Sign::Colon) {
        bound(alloc, tokens, left)
    } else {
        Ok(None)
    }
}

#[cycle(parser)]
#[tactic(auto, using(template_compiler_expression_parts::proofs::Nothing::no_bracket_opens), unfolding(template_compiler_grammar::specs::Reader::primary_by, template_compiler_grammar::specs::Reader::deeper))]
#[inline(always)]
fn primary<'source>(
    alloc: Global,
    tokens: &mut TokenStream<'source>,
    left: u32,
) -> Result<Expr<'source>, Refusal>
    ensures parsed { let table = tokens.old.spans in
        Parsed (primary_by table (deeper table left) tokens.old.left) tokens.new.left result }
    ensures spans { KeepsSpans tokens.old tokens.new }
{
    let span = tokens.span();
    if tokens.skip(Sign::ParenOpen) {
        paren(alloc, tokens, deeper(left)?, span)
    } else if tokens.skip(Sign::BracketOpen) {
        list(alloc, tokens, deeper(left)?, span)
    } else if tokens.skip(Sign::BraceOpen) {
        map(alloc, tokens, deeper(left)?, span)
    } else {
        literal(alloc, tokens)
    }
}

// Behind `(`.
#[cycle(parser)]
#[tactic(auto, using(template_compiler_expression_parts::proofs::Nothing::not_empty, template_compiler_expression_parts::proofs::Nothing::no_tuple), unfolding(template_compiler_tokens::specs::Steps::and_then, template_compiler_grammar::specs::Reader::paren_by, template_compiler_grammar::specs::Reader::paren_behind, template_compiler_grammar::specs::Reader::items_by))]
#[inline(never)]
fn paren<'source>(
    alloc: Global,
    tokens: &mut TokenStream<'source>,
    left: u32,
    span: Span,
) -> Result<Expr<'source>, Refusal>
    ensures parsed { let table = tokens.old.spans in
        Parsed (paren_by table (expression_by table (deeper table left)) span tokens.old.left) tokens.new.left result }
    ensures spans { KeepsSpans tokens.old tokens.new }
{
    if tokens.skip(Sign::ParenClose) {
        return Expr::tuple(alloc, Vec::new(alloc), tokens.expand_span(span)).map_err(Refusal::from);
    }
    let first = expression(alloc, tokens, left)?;
    if tokens.skip(Sign::Comma) {
        tuple(alloc, tokens, left, first, span)
    } else {
        in_parens(tokens, first)
    }
}

// Behind the first comma of a tuple.
#[cycle(parser)]
#[tactic(auto, unfolding(template_compiler_tokens::specs::Steps::and_then))]
fn tuple<'source>(
    alloc: Global,
    tokens: &mut TokenStream<'source>,
    left: u32,
    first: Expr<'source>,
    span: Span,
) -> Result<Expr<'source>, Refusal>
    ensures parsed { let table = tokens.old.spans in
        Parsed (and_then (all (items_step table (expression_by table (deeper table left))) (first_node (node_of first.entry))
        tokens.old.left) (λ es us. paren_end (node (tuple_literal es.tree) (through_next table span us) es.places) us)) tokens.new.left
        result }
    ensures spans { KeepsSpans tokens.old tokens.new }
{
    let mut held = Vec::new(alloc);
    held.push(first)?;
    let held = items(alloc, tokens, left, held)?;
    let span = tokens.span_through_next(span);
    in_parens(tokens, Expr::tuple(alloc, held, span)?)
}

// Behind the `[` of a list.
#[cycle(parser)]
#[tactic(auto, unfolding(template_compiler_tokens::specs::Steps::and_then, template_compiler_grammar::specs::Reader::list_by, template_compiler_grammar::specs::Reader::items_by))]
#[inline(never)]
fn list<'source>(
    alloc: Global,
    tokens: &mut TokenStream<'source>,
    left: u32,
    span: Span,
) -> Result<Expr<'source>, Refusal>
    ensures parsed { let table = tokens.old.spans in
        Parsed (list_by table (expression_by table (deeper table left)) span tokens.old.left) tokens.new.left result }
    ensures spans { KeepsSpans tokens.old tokens.new }
{
    let held = items(alloc, tokens, left, Vec::new(alloc))?;
    let span = tokens.span_through_next(span);
    in_brackets(tokens, Expr::list(alloc, held, span)?)
}

// Items, with commas between them, up to a closing bracket.
#[cycle(parser)]
fn items<'source>(
    alloc: Global,
    tokens: &mut TokenStream<'source>,
    left: u32,
    held: Vec<Expr<'source>>,
) -> Result<Vec<Expr<'source>>, Refusal>
    ensures parsed { let table = tokens.old.spans in
        ParsedAs (λ v. nodes_in v.items) (all (items_step table (expression_by table (deeper table left))) (nodes_in held.entry.items)
        tokens.old.left) tokens.new.left result }
    ensures spans { KeepsSpans tokens.old tokens.new }
{
    let mut held = held;
    loop {
        match next_item(alloc, tokens, left, &mut held) {
            Ok(true) => {}
            Ok(false) => return Ok(held),
            Err(refusal) => return Err(refusal),
        }
    }
}

#[cycle(parser)]
#[tactic(auto, using(template_compiler_grammar::proofs::Pushes::nodes_push, crate::proofs::Items::closing_stops, crate::proofs::Items::item_goes, crate::proofs::Items::item_refused, crate::proofs::Items::item_unseparated))]
fn next_item<'source>(
    alloc: Global,
    tokens: &mut TokenStream<'source>,
    left: u32,
    held: &mut Vec<Expr<'source>>,
) -> Result<bool, Refusal>
    ensures parsed { let table = tokens.old.spans in
        SteppedTo (items_step table (expression_by table (deeper table left)) (nodes_in held.old.items) tokens.old.left) (nodes_in
        held.old.items) tokens.old.left (nodes_in held.new.items) tokens.new.left result }
    ensures spans { KeepsSpans tokens.old tokens.new }
{
    if tokens.closes() {
        return Ok(false);
    }
    let item = match expression(alloc, tokens, left) {
        Ok(item) => item,
        Err(refusal) => return Err(refusal),
    };
    held.push(item)?;
    separated(tokens)?;
    Ok(true)
}

// Behind the `{` of a map.
#[cycle(parser)]
#[tactic(auto, unfolding(template_compiler_tokens::specs::Steps::and_then, template_compiler_grammar::specs::Reader::map_by, template_compiler_grammar::specs::Reader::pairs_by))]
#[inline(never)]
fn map<'source>(
    alloc: Global,
    tokens: &mut TokenStream<'source>,
    left: u32,
    span: Span,
) -> Result<Expr<'source>, Refusal>
    ensures parsed { let table = tokens.old.spans in
        Parsed (map_by table (expression_by table (deeper table left)) span tokens.old.left) tokens.new.left result }
    ensures spans { KeepsSpans tokens.old tokens.new }
{
    let Pairs { keys, values } = pairs(alloc, tokens, left)?;
    let span = tokens.span_through_next(span);
    in_braces(tokens, Expr::map(alloc, keys, values, span)?)
}

// Pairs, with commas between them, up to a closing bracket.
#[cycle(parser)]
fn pairs<'source>(
    alloc: Global,
    tokens: &mut TokenStream<'source>,
    left: u32,
) -> Result<Pairs<'source>, Refusal>
    ensures parsed { let table = tokens.old.spans in
        ParsedAs paired_in (all (pairs_step table (expression_by table (deeper table left))) no_placed_pairs tokens.old.left)
        tokens.new.left result }
    ensures spans { KeepsSpans tokens.old tokens.new }
{
    let mut held = Pairs {
        keys: Vec::new(alloc),
        values: Vec::new(alloc),
    };
    loop {
        match next_pair(alloc, tokens, left, &mut held) {
            Ok(true) => {}
            Ok(false) => return Ok(held),
            Err(refusal) => return Err(refusal),
        }
    }
}

#[cycle(parser)]
#[tactic(auto, using(crate::proofs::Items::closing_stops, crate::proofs::Items::pair_goes, crate::proofs::Items::key_refused, crate::proofs::Items::value_refused, crate::proofs::Items::pair_unseparated))]
fn next_pair<'source>(
    alloc: Global,
    tokens: &mut TokenStream<'source>,
    left: u32,
    held: &mut Pairs<'source>,
) -> Result<bool, Refusal>
    ensures parsed { let table = tokens.old.spans in
        SteppedTo (pairs_step table (expression_by table (deeper table left)) (paired_in held.old) tokens.old.left) (paired_in held.old)
        tokens.old.left (paired_in held.new) tokens.new.left result }
    ensures spans { KeepsSpans tokens.old tokens.new }
{
    if tokens.closes() {
        return Ok(false);
    }
    let key = match key(alloc, tokens, left) {
        Ok(key) => key,
        Err(refusal) => return Err(refusal),
    };
    let value = match expression(alloc, tokens, left) {
        Ok(value) => value,
        Err(refusal) => return Err(refusal),
    };
    held.push(key, value)?;
    separated(tokens)?;
    Ok(true)
}

// A key and the colon behind it.
#[cycle(parser)]
#[tactic(auto, unfolding(template_compiler_tokens::specs::Steps::and_then))]
fn key<'source>(
    alloc: Global,
    tokens: &mut TokenStream<'source>,
    left: u32,
) -> Result<Expr<'source>, Refusal>
    ensures parsed { let table = tokens.old.spans in
        Parsed (and_then (expression_by table (deeper table left) tokens.old.left) colon_end) tokens.new.left result }
    ensures spans { KeepsSpans tokens.old tokens.new }
{
    let key = expression(alloc, tokens, left)?;
    before_colon(tokens, key)
}

// Behind the `(` of arguments.
#[cycle(parser)]
#[tactic(auto, unfolding(template_compiler_tokens::specs::Steps::and_then, template_compiler_grammar::specs::Reader::arguments_by))]
fn arguments<'source>(
    alloc: Global,
    tokens: &mut TokenStream<'source>,
    left: u32,
) -> Result<Vec<CallArg<'source>>, Refusal>
    ensures parsed { let table = tokens.old.spans in
        ParsedAs (λ v. placed_arguments_in v.items) (arguments_by table (expression_by table (deeper table left)) tokens.old.left)
        tokens.new.left result }
    ensures spans { KeepsSpans tokens.old tokens.new }
{
    let held = written(alloc, tokens, left)?;
    in_order(tokens, held)
}

// Arguments, with commas between them, up to a closing bracket.
#[cycle(parser)]
fn written<'source>(
    alloc: Global,
    tokens: &mut TokenStream<'source>,
    left: u32,
) -> Result<Written<'source>, Refusal>
    ensures parsed { let table = tokens.old.spans in
        ParsedAs written_in (all (arguments_step table (expression_by table (deeper table left))) no_placed_written tokens.old.left)
        tokens.new.left result }
    ensures spans { KeepsSpans tokens.old tokens.new }
{
    let mut held = Written {
        by_place: Vec::new(alloc),
        by_keyword: Vec::new(alloc),
    };
    loop {
        match next_argument(alloc, tokens, left, &mut held) {
            Ok(true) => {}
            Ok(false) => return Ok(held),
            Err(refusal) => return Err(refusal),
        }
    }
}

#[cycle(parser)]
#[tactic(auto, using(crate::proofs::Items::closing_stops, crate::proofs::Items::argument_goes, crate::proofs::Items::argument_refused, crate::proofs::Items::argument_unseparated))]
fn next_argument<'source>(
    alloc: Global,
    tokens: &mut TokenStream<'source>,
    left: u32,
    held: &mut Written<'source>,
) -> Result<bool, Refusal>
    ensures parsed { let table = tokens.old.spans in
        SteppedTo (arguments_step table (expression_by table (deeper table left)) (written_in held.old) tokens.old.left) (written_in
        held.old) tokens.old.left (written_in held.new) tokens.new.left result }
    ensures spans { KeepsSpans tokens.old tokens.new }
{
    if tokens.closes() {
        return Ok(false);
    }
    let argument = match argument(alloc, tokens, left) {
        Ok(argument) => argument,
        Err(refusal) => return Err(refusal),
    };
    held.push(argument)?;
    separated(tokens)?;
    Ok(true)
}

#[cycle(parser)]
#[tactic(auto, using(template_compiler_expression_parts::proofs::Nothing::not_named), unfolding(template_compiler_tokens::specs::Steps::and_then, template_compiler_grammar::specs::Reader::argument_by, template_compiler_grammar::specs::Reader::named_argument))]
fn argument<'source>(
    alloc: Global,
    tokens: &mut TokenStream<'source>,
    left: u32,
) -> Result<CallArg<'source>, Refusal>
    ensures parsed { let table = tokens.old.spans in
        ParsedAs placed_argument_of (argument_by table (expression_by table (deeper table left)) tokens.old.left) tokens.new.left result }
    ensures spans { KeepsSpans tokens.old tokens.new }
{
    match tokens.skip_keyword() {
        Some(name) => Ok(CallArg::Kwarg(name, expression(alloc, tokens, left)?)),
        None => unnamed(alloc, tokens, left),
    }
}

#[cycle(parser)]
#[tactic(auto, using(template_compiler_expression_parts::proofs::Nothing::no_spread), unfolding(template_compiler_tokens::specs::Steps::and_then, template_compiler_expression_parts::specs::Parsed::unnamed_by))]
fn unnamed<'source>(
    alloc: Global,
    tokens: &mut TokenStream<'source>,
    left: u32,
) -> Result<CallArg<'source>, Refusal>
    ensures parsed { let table = tokens.old.spans in
        ParsedAs placed_argument_of (unnamed_by (expression_by table (deeper table left)) tokens.old.left) tokens.new.left result }
    ensures spans { KeepsSpans tokens.old tokens.new }
{
    if tokens.skip(Sign::Mul) {
        expression(alloc, tokens, left).map(CallArg::PosSplat)
    } else if tokens.skip(Sign::Pow) {
        expression(alloc, tokens, left).map(CallArg::KwargSplat)
    } else {
        expression(alloc, tokens, left).map(CallArg::Pos)
    }
}
