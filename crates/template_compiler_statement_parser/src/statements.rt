//! Statements and their bodies: what calls itself. A body is one nesting level deeper than its statement.
ghost use Rattle.std.specs.Prelude.{◌≡◌, [], IfOk};
ghost use Rattle.template_compiler_statement_parts.specs.Parsed.{ParsedAs, ParsedInto, SteppedTo};
ghost use Rattle.template_compiler_tokens.specs.Places.{next_span};
ghost use Rattle.template_compiler_tokens.specs.Steps.{all, and_then};
ghost use Rattle.template_compiler_statement_heads.specs.DeclarationHeads.{set_over, set_rest};
ghost use Rattle.template_compiler_statement_makers.specs.Begun.{set_block_of};
ghost use Rattle.template_compiler_statement_makers.specs.Branches.{branch_in, branches_in};
ghost use Rattle.template_compiler_statement_parser.specs.Bodies.{ParsedBody, ParsedStatement, PutBehind, if_rest};
ghost use Rattle.template_compiler_statement_parser.specs.Kinds.{parent_opening};
ghost use Rattle.template_compiler_statement_makers.specs.Surroundings.{around_of, opening_of};
ghost use Rattle.template_compiler_stream.specs.Left.{passed};
ghost use Rattle.template_compiler_stream.specs.Spans.{KeepsSpans};
ghost use Rattle.template_compiler_grammar.specs.TemplateReaderParts.{expect_tag, opening};
ghost use Rattle.template_compiler_grammar.specs.TemplateNodes.{no_placed_branches};
ghost use Rattle.template_compiler_grammar.specs.TemplateReader.{autoescape_by, block_by, branch_by, branch_step, call_by, deeper_body, else_by, filter_block_by, for_by, here, if_by, macro_by, opened_by, opened_step, set_by, statement_step, statements_at, with_by};
ghost use Rattle.template_compiler_grammar.specs.Views.{statement_node_of};
ghost use Rattle.template_compiler_tree_statements.specs.declared.statements.Stmt.TheVariants as statements;
ghost use Rattle.template_compiler_statement_makers.specs.Listed.{statement_nodes_in};

use crate::behind::{put_condition, put_leaf, put_loop, put_print, put_text};
use crate::kinds::{Kind, Parent, kind_of};
use std::alloc::Global;
use template_compiler_statement_heads as declarations;
use template_compiler_statement_heads as loops;
use template_compiler_statement_heads::SetHead;
use template_compiler_statement_makers::{Around, Opening, ends, makers, opening_named};
use template_compiler_statement_parts as parts;
use template_compiler_statement_parts::ReadsExpressions;
use template_compiler_stream::{Fault, Refusal, TokenStream};
use template_compiler_tree::{Span, Spanned};
use template_compiler_tree_statements::{
    AutoEscape, Block, CallBlock, FilterBlock, ForLoop, IfCond, Macro, SetBlock, Stmt, WithBlock,
};

// A body, one nesting level deeper, into its place, which is empty.
#[cycle(statements)]
#[tactic(auto, unfolding(template_compiler_grammar::specs::TemplateReader::deeper_body))]
fn read_body<'source, R: ReadsExpressions>(
    alloc: Global,
    tokens: &mut TokenStream<'source>,
    left: u32,
    around: Around,
    body: &mut Vec<Stmt<'source>>,
) -> Result<(), Refusal>
    requires { body.old.items ≡ [] }
    ensures parsed { ParsedInto (deeper_body tokens.old.spans left (around_of around) tokens.old.left) (statement_nodes_in body.new.items)
        tokens.new.left result }
    ensures spans { KeepsSpans tokens.old tokens.new }
{
    if left == 0 {
        Err(Refusal::Token(Fault::Syntax))
    } else {
        put_statements::<R>(alloc, tokens, left - 1, around, body)
    }
}

/// Reads statements, up to what begins none.
///
/// # Errors
///
/// The fault of the token that does not fit, or want of memory.
#[tactic(auto, unfolding(template_compiler_grammar::specs::TemplateReader::statements_at, template_compiler_grammar::specs::TemplateReader::statements_by))]
pub fn read_statements<'source, R: ReadsExpressions>(
    alloc: Global,
    tokens: &mut TokenStream<'source>,
    left: u32,
    around: Around,
) -> Result<Vec<Stmt<'source>>, Refusal>
    ensures parsed { ParsedBody (statements_at tokens.old.spans left (around_of around) tokens.old.left) tokens.new.left result }
    ensures spans { KeepsSpans tokens.old tokens.new }
{
    let mut statements = Vec::new(alloc);
    put_statements::<R>(alloc, tokens, left, around, &mut statements)?;
    Ok(statements)
}

// Reads statements behind others, up to what begins none.
#[cycle(statements)]
fn put_statements<'source, R: ReadsExpressions>(
    alloc: Global,
    tokens: &mut TokenStream<'source>,
    left: u32,
    around: Around,
    statements: &mut Vec<Stmt<'source>>,
) -> Result<(), Refusal>
    ensures parsed { let table = tokens.old.spans in
        ParsedInto (all (statement_step table (here table left) (around_of around)) (statement_nodes_in statements.old.items)
        tokens.old.left) (statement_nodes_in statements.new.items) tokens.new.left result }
    ensures spans { KeepsSpans tokens.old tokens.new }
{
    loop {
        match next_statement::<R>(alloc, tokens, left, around, statements) {
            Ok(true) => {}
            Ok(false) => return Ok(()),
            Err(refusal) => return Err(refusal),
        }
    }
}

// A text, a print or a tag that begins a statement.
#[cycle(statements)]
#[tactic(auto, using(crate::proofs::Next::print_here, crate::proofs::Next::nothing_here), unfolding(template_compiler_tokens::specs::Steps::under))]
fn next_statement<'source, R: ReadsExpressions>(
    alloc: Global,
    tokens: &mut TokenStream<'source>,
    left: u32,
    around: Around,
    statements: &mut Vec<Stmt<'source>>,
) -> Result<bool, Refusal>
    ensures parsed { let table = tokens.old.spans in
        SteppedTo (statement_step table (here table left) (around_of around) (statement_nodes_in statements.old.items) tokens.old.left)
        (statement_nodes_in statements.old.items) tokens.old.left (statement_nodes_in statements.new.items) tokens.new.left result }
    ensures spans { KeepsSpans tokens.old tokens.new }
{
    let span = tokens.span();
    if let Some(text) = tokens.text() {
        tokens.advance();
        put_text(statements, text, span)?;
        return Ok(true);
    }
    if tokens.starts_print() {
        tokens.advance();
        put_print::<R>(alloc, tokens, left, span, statements)?;
        return Ok(true);
    }
    match parts::tag_word(tokens) {
        Some(word) => next_tag::<R>(alloc, tokens, left, around, statements, word),
        None => Ok(false),
    }
}

// The statement that the word of the next tag begins.
#[cycle(statements)]
#[tactic(auto, unfolding(template_compiler_tokens::specs::Steps::under, template_compiler_grammar::specs::TemplateReader::opened_step))]
fn next_tag<'source, R: ReadsExpressions>(
    alloc: Global,
    tokens: &mut TokenStream<'source>,
    left: u32,
    around: Around,
    statements: &mut Vec<Stmt<'source>>,
    word: &str,
) -> Result<bool, Refusal>
    ensures parsed { let table = tokens.old.spans in
        SteppedTo (opened_step table (here table left) (around_of around) (next_span table tokens.old.left)
        (statement_nodes_in statements.old.items) (opening word.now) (passed (passed tokens.old.left)))
        (statement_nodes_in statements.old.items) tokens.old.left (statement_nodes_in statements.new.items) tokens.new.left result }
    ensures spans { KeepsSpans tokens.old tokens.new }
{
    match opening_named(word) {
        Some(opening) => {
            let span = tokens.span();
            tokens.advance();
            tokens.advance();
            put_opened::<R>(alloc, tokens, left, around, opening, span, statements)?;
            Ok(true)
        }
        None => Ok(false),
    }
}

// A statement, behind the word that begins it. Loops and conditions are most of them.
#[cycle(statements)]
fn put_opened<'source, R: ReadsExpressions>(
    alloc: Global,
    tokens: &mut TokenStream<'source>,
    left: u32,
    around: Around,
    opening: Opening,
    span: Span,
    statements: &mut Vec<Stmt<'source>>,
) -> Result<(), Refusal>
    ensures parsed { let table = tokens.old.spans in
        PutBehind (opened_by table (here table left) (around_of around) (opening_of opening) span tokens.old.left)
        (statement_nodes_in statements.old.items) (statement_nodes_in statements.new.items) tokens.new.left result }
    ensures spans { KeepsSpans tokens.old tokens.new }
{
    match kind_of(opening) {
        Kind::Loop => put_loop(
            statements,
            for_loop::<R>(alloc, tokens, left, around, span)?,
        ),
        Kind::Condition => put_condition(
            statements,
            if_condition::<R>(alloc, tokens, left, around, span)?,
        ),
        Kind::Leaf(leaf) => put_leaf::<R>(alloc, tokens, left, around, leaf, span, statements),
        Kind::Parent(parent) => {
            put_parent::<R>(alloc, tokens, left, around, parent, span, statements)
        }
    }
}

// Another statement that has a body or may have one.
#[cycle(statements)]
#[inline(never)]
fn put_parent<'source, R: ReadsExpressions>(
    alloc: Global,
    tokens: &mut TokenStream<'source>,
    left: u32,
    around: Around,
    parent: Parent,
    span: Span,
    statements: &mut Vec<Stmt<'source>>,
) -> Result<(), Refusal>
    ensures parsed { let table = tokens.old.spans in
        PutBehind (opened_by table (here table left) (around_of around) (parent_opening parent) span tokens.old.left)
        (statement_nodes_in statements.old.items) (statement_nodes_in statements.new.items) tokens.new.left result }
    ensures spans { KeepsSpans tokens.old tokens.new }
{
    let statement = read_parent::<R>(alloc, tokens, left, around, parent, span)?;
    parts::put(statements, statement)
}

#[cycle(statements)]
#[tactic(auto, unfolding(template_compiler_grammar::specs::TemplateReader::opened_by))]
fn read_parent<'source, R: ReadsExpressions>(
    alloc: Global,
    tokens: &mut TokenStream<'source>,
    left: u32,
    around: Around,
    parent: Parent,
    span: Span,
) -> Result<Stmt<'source>, Refusal>
    ensures parsed { let table = tokens.old.spans in
        ParsedStatement (opened_by table (here table left) (around_of around) (parent_opening parent) span tokens.old.left)
        tokens.new.left result }
    ensures spans { KeepsSpans tokens.old tokens.new }
{
    match parent {
        Parent::With => Ok(Stmt::WithBlock(with_block::<R>(alloc, tokens, left, around, span)?)),
        Parent::Set => set::<R>(alloc, tokens, left, around, span),
        Parent::AutoEscape => Ok(Stmt::AutoEscape(auto_escape::<R>(
            alloc, tokens, left, around, span,
        )?)),
        Parent::Filter => Ok(Stmt::FilterBlock(filter_block::<R>(
            alloc, tokens, left, around, span,
        )?)),
        Parent::Block => Ok(Stmt::Block(block::<R>(alloc, tokens, left, around, span)?)),
        Parent::Macro => Ok(Stmt::Macro(macro_block::<R>(alloc, tokens, left, span)?)),
        Parent::Call => Ok(Stmt::CallBlock(call_block::<R>(alloc, tokens, left, span)?)),
    }
}

// A body, and the tag that ends it.
#[cycle(statements)]
#[tactic(auto, using(template_compiler_statement_parts::proofs::Again::tag_again), unfolding(template_compiler_tokens::specs::Steps::and_then))]
fn ended_body<'source, R: ReadsExpressions>(
    alloc: Global,
    tokens: &mut TokenStream<'source>,
    left: u32,
    around: Around,
    end: &str,
) -> Result<Vec<Stmt<'source>>, Refusal>
    ensures parsed { let table = tokens.old.spans in
        ParsedBody (and_then (deeper_body table left (around_of around) tokens.old.left) (expect_tag end.now)) tokens.new.left result }
    ensures spans { KeepsSpans tokens.old tokens.new }
{
    let mut body = Vec::new(alloc);
    read_body::<R>(alloc, tokens, left, around, &mut body)?;
    parts::expect_tag(tokens, end)?;
    Ok(body)
}

// The other body, where there is one, into its place, which is empty, and the tag that ends the statement.
#[cycle(statements)]
#[inline(always)]
fn otherwise<'source, R: ReadsExpressions>(
    alloc: Global,
    tokens: &mut TokenStream<'source>,
    left: u32,
    around: Around,
    end: &str,
    other: &mut Vec<Stmt<'source>>,
) -> Result<(), Refusal>
    requires empty { other.old.items ≡ [] }
    ensures parsed { let table = tokens.old.spans in
        ParsedInto (else_by table (here table left) (around_of around) end.now tokens.old.left) (statement_nodes_in other.new.items)
        tokens.new.left result }
    ensures spans { KeepsSpans tokens.old tokens.new }
{
    if parts::begins_tag(tokens, "else") {
        tokens.advance();
        tokens.advance();
        parts::expect_tag_end(tokens)?;
        read_body::<R>(alloc, tokens, left, around, other)?;
        parts::expect_tag(tokens, end)
    } else {
        parts::expect_tag(tokens, end)
    }
}

// A loop, behind its word: its head, its body, and the one for the case that nothing is gone over. What is left out by the
// condition on the items is not gone over.
#[cycle(statements)]
fn for_loop<'source, R: ReadsExpressions>(
    alloc: Global,
    tokens: &mut TokenStream<'source>,
    left: u32,
    around: Around,
    span: Span,
) -> Result<Box<Spanned<ForLoop<'source>>>, Refusal>
    ensures parsed { let table = tokens.old.spans in
        ParsedAs (λ n. statement_node_of (statements.ForLoop n)) (for_by table (here table left) (around_of around) span tokens.old.left)
        tokens.new.left result }
    ensures spans { KeepsSpans tokens.old tokens.new }
{
    let mut head = loops::read_for::<R>(alloc, tokens, left, span)?;
    read_body::<R>(
        alloc,
        tokens,
        left,
        around.within_loop(),
        &mut head.node.body,
    )?;
    otherwise::<R>(
        alloc,
        tokens,
        left,
        around,
        "endfor",
        &mut head.node.else_body,
    )?;
    Ok(ends::for_loop(head, tokens.expand_span(span)))
}

// A condition, behind its word: its head and its body, and what stands for the case that it does not hold, perhaps behind
// other branches.
#[cycle(statements)]
fn if_condition<'source, R: ReadsExpressions>(
    alloc: Global,
    tokens: &mut TokenStream<'source>,
    left: u32,
    around: Around,
    span: Span,
) -> Result<Box<Spanned<IfCond<'source>>>, Refusal>
    ensures parsed { let table = tokens.old.spans in
        ParsedAs (λ n. statement_node_of (statements.IfCond n)) (if_by table (here table left) (around_of around) span tokens.old.left)
        tokens.new.left result }
    ensures spans { KeepsSpans tokens.old tokens.new }
{
    let mut branch = read_branch::<R>(alloc, tokens, left, around, span)?;
    if parts::begins_tag(tokens, "elif") {
        return if_chain::<R>(alloc, tokens, left, around, branch, span);
    }
    otherwise::<R>(
        alloc,
        tokens,
        left,
        around,
        "endif",
        &mut branch.node.false_body,
    )?;
    Ok(ends::condition(branch, tokens.expand_span(span)))
}

// A condition behind its first branch, where others stand: these, and what stands for the case that none holds. Each branch
// becomes the other body of the one before it.
#[cycle(statements)]
#[inline(never)]
fn if_chain<'source, R: ReadsExpressions>(
    alloc: Global,
    tokens: &mut TokenStream<'source>,
    left: u32,
    around: Around,
    first: Box<Spanned<IfCond<'source>>>,
    span: Span,
) -> Result<Box<Spanned<IfCond<'source>>>, Refusal>
    ensures parsed { let table = tokens.old.spans in
        ParsedAs (λ n. statement_node_of (statements.IfCond n)) (if_rest table (here table left) (around_of around) span
        (branch_in first.entry) tokens.old.left) tokens.new.left result }
    ensures spans { KeepsSpans tokens.old tokens.new }
{
    let others = branches::<R>(alloc, tokens, left, around)?;
    let mut last = Vec::new(alloc);
    otherwise::<R>(alloc, tokens, left, around, "endif", &mut last)?;
    let whole = tokens.expand_span(span);
    let false_body = ends::branched(alloc, others, last, whole)?;
    Ok(makers::otherwise(first, false_body, whole))
}

// A condition with its body.
#[cycle(statements)]
#[inline(always)]
fn read_branch<'source, R: ReadsExpressions>(
    alloc: Global,
    tokens: &mut TokenStream<'source>,
    left: u32,
    around: Around,
    span: Span,
) -> Result<Box<Spanned<IfCond<'source>>>, Refusal>
    ensures parsed { let table = tokens.old.spans in
        ParsedAs branch_in (branch_by table (here table left) (around_of around) tokens.old.left) tokens.new.left result }
    ensures span { IfOk result (λ branch. branch.value.span ≡ span) }
    ensures no_other { IfOk result (λ branch. branch.value.node.false_body.items ≡ []) }
    ensures spans { KeepsSpans tokens.old tokens.new }
{
    let mut head = loops::read_branch::<R>(alloc, tokens, left, span)?;
    read_body::<R>(alloc, tokens, left, around, &mut head.node.true_body)?;
    Ok(head)
}

// The branches behind the first one.
#[cycle(statements)]
fn branches<'source, R: ReadsExpressions>(
    alloc: Global,
    tokens: &mut TokenStream<'source>,
    left: u32,
    around: Around,
) -> Result<Vec<Box<Spanned<IfCond<'source>>>>, Refusal>
    ensures parsed { let table = tokens.old.spans in
        ParsedAs (λ v. branches_in v.items)
        (all (branch_step table (here table left) (around_of around)) no_placed_branches tokens.old.left) tokens.new.left result }
    ensures spans { KeepsSpans tokens.old tokens.new }
{
    let mut branches = Vec::new(alloc);
    loop {
        match next_branch::<R>(alloc, tokens, left, around, &mut branches) {
            Ok(true) => {}
            Ok(false) => return Ok(branches),
            Err(refusal) => return Err(refusal),
        }
    }
}

// One more branch, where an `elif` stands next.
#[cycle(statements)]
#[tactic(auto, using(crate::proofs::Next::branch_here, crate::proofs::Next::no_branch, template_compiler_statement_makers::proofs::Branches::branches_push), unfolding(template_compiler_tokens::specs::Steps::under))]
fn next_branch<'source, R: ReadsExpressions>(
    alloc: Global,
    tokens: &mut TokenStream<'source>,
    left: u32,
    around: Around,
    branches: &mut Vec<Box<Spanned<IfCond<'source>>>>,
) -> Result<bool, Refusal>
    ensures parsed { let table = tokens.old.spans in
        SteppedTo (branch_step table (here table left) (around_of around) (branches_in branches.old.items) tokens.old.left)
        (branches_in branches.old.items) tokens.old.left (branches_in branches.new.items) tokens.new.left result }
    ensures spans { KeepsSpans tokens.old tokens.new }
{
    if parts::begins_tag(tokens, "elif") {
        let span = tokens.span();
        tokens.advance();
        tokens.advance();
        parts::put(
            branches,
            read_branch::<R>(alloc, tokens, left, around, span)?,
        )?;
        Ok(true)
    } else {
        Ok(false)
    }
}

// Names for a body, behind the word: targets with their values, the body, and the tag that ends it.
#[cycle(statements)]
fn with_block<'source, R: ReadsExpressions>(
    alloc: Global,
    tokens: &mut TokenStream<'source>,
    left: u32,
    around: Around,
    span: Span,
) -> Result<Box<Spanned<WithBlock<'source>>>, Refusal>
    ensures parsed { let table = tokens.old.spans in
        ParsedAs (λ n. statement_node_of (statements.WithBlock n)) (with_by table (here table left) (around_of around) span tokens.old.left)
        tokens.new.left result }
    ensures spans { KeepsSpans tokens.old tokens.new }
{
    let head = loops::read_with::<R>(alloc, tokens, left)?;
    let body = ended_body::<R>(alloc, tokens, left, around, "endwith")?;
    Ok(makers::with_block(alloc, head, body, tokens.expand_span(span))?)
}

// A `set`, behind its word: one with values ends with its tag, a set block has a body.
#[cycle(statements)]
fn set<'source, R: ReadsExpressions>(
    alloc: Global,
    tokens: &mut TokenStream<'source>,
    left: u32,
    around: Around,
    span: Span,
) -> Result<Stmt<'source>, Refusal>
    ensures parsed { let table = tokens.old.spans in
        ParsedStatement (set_by table (here table left) (around_of around) span tokens.old.left) tokens.new.left result }
    ensures spans { KeepsSpans tokens.old tokens.new }
{
    match declarations::read_set::<R>(alloc, tokens, left, span)? {
        SetHead::Values(node) => return Ok(Stmt::Set(node)),
        SetHead::Block(head) => {
            return set_block::<R>(alloc, tokens, left, around, head, span).map(Stmt::SetBlock);
        }
    }
}

// A set block, behind its head.
#[cycle(statements)]
fn set_block<'source, R: ReadsExpressions>(
    alloc: Global,
    tokens: &mut TokenStream<'source>,
    left: u32,
    around: Around,
    head: Box<Spanned<SetBlock<'source>>>,
    span: Span,
) -> Result<Box<Spanned<SetBlock<'source>>>, Refusal>
    ensures parsed { let table = tokens.old.spans in
        ParsedAs (λ n. statement_node_of (statements.SetBlock n))
        (set_rest table (here table left) (around_of around) span (set_over (set_block_of head.entry)) tokens.old.left)
        tokens.new.left result }
    ensures spans { KeepsSpans tokens.old tokens.new }
{
    let body = ended_body::<R>(alloc, tokens, left, around, "endset")?;
    Ok(ends::set_block(head, body, tokens.expand_span(span)))
}

// How a body is escaped, behind the word: an expression, the body, and the tag that ends it.
#[cycle(statements)]
fn auto_escape<'source, R: ReadsExpressions>(
    alloc: Global,
    tokens: &mut TokenStream<'source>,
    left: u32,
    around: Around,
    span: Span,
) -> Result<Box<Spanned<AutoEscape<'source>>>, Refusal>
    ensures parsed { let table = tokens.old.spans in
        ParsedAs (λ n. statement_node_of (statements.AutoEscape n))
        (autoescape_by table (here table left) (around_of around) span tokens.old.left) tokens.new.left result }
    ensures spans { KeepsSpans tokens.old tokens.new }
{
    let head = loops::read_auto_escape::<R>(alloc, tokens, left, span)?;
    let body = ended_body::<R>(alloc, tokens, left, around, "endautoescape")?;
    Ok(ends::auto_escape(head, body, tokens.expand_span(span)))
}

// A body through filters, behind the word: the filters, the body, and the tag that ends it.
#[cycle(statements)]
fn filter_block<'source, R: ReadsExpressions>(
    alloc: Global,
    tokens: &mut TokenStream<'source>,
    left: u32,
    around: Around,
    span: Span,
) -> Result<Box<Spanned<FilterBlock<'source>>>, Refusal>
    ensures parsed { let table = tokens.old.spans in
        ParsedAs (λ n. statement_node_of (statements.FilterBlock n))
        (filter_block_by table (here table left) (around_of around) span tokens.old.left) tokens.new.left result }
    ensures spans { KeepsSpans tokens.old tokens.new }
{
    let head = loops::read_filter_block::<R>(alloc, tokens, left, span)?;
    let body = ended_body::<R>(alloc, tokens, left, around, "endfilter")?;
    Ok(ends::filter_block(head, body, tokens.expand_span(span)))
}

// A block, behind its word: its name and whether it is required, its body, and its end, which may have the name again. No loop
// is around in the body.
#[cycle(statements)]
fn block<'source, R: ReadsExpressions>(
    alloc: Global,
    tokens: &mut TokenStream<'source>,
    left: u32,
    around: Around,
    span: Span,
) -> Result<Box<Spanned<Block<'source>>>, Refusal>
    ensures parsed { let table = tokens.old.spans in
        ParsedAs (λ n. statement_node_of (statements.Block n)) (block_by table (here table left) (around_of around) span tokens.old.left)
        tokens.new.left result }
    ensures spans { KeepsSpans tokens.old tokens.new }
{
    let head = declarations::read_block(tokens, around.in_macro)?;
    let mut body = Vec::new(alloc);
    read_body::<R>(alloc, tokens, left, around.within_block(), &mut body)?;
    declarations::read_block_end(alloc, tokens, head, body, span)
}

// A macro, behind its word: its name and arguments, its body, and the tag that ends it. In its body no loop is
// around, and no block stands.
#[cycle(statements)]
fn macro_block<'source, R: ReadsExpressions>(
    alloc: Global,
    tokens: &mut TokenStream<'source>,
    left: u32,
    span: Span,
) -> Result<Box<Spanned<Macro<'source>>>, Refusal>
    ensures parsed { let table = tokens.old.spans in
        ParsedAs (λ n. statement_node_of (statements.Macro n)) (macro_by table (here table left) span tokens.old.left)
        tokens.new.left result }
    ensures spans { KeepsSpans tokens.old tokens.new }
{
    let head = declarations::read_macro::<R>(alloc, tokens, left)?;
    let body = ended_body::<R>(alloc, tokens, left, Around::within_macro(), "endmacro")?;
    Ok(declarations::macro_block(alloc, head, body, tokens.expand_span(span))?)
}

// A call with a body, behind the word: the arguments of the body, the call, the body, and the tag that ends it.
#[cycle(statements)]
fn call_block<'source, R: ReadsExpressions>(
    alloc: Global,
    tokens: &mut TokenStream<'source>,
    left: u32,
    span: Span,
) -> Result<Box<Spanned<CallBlock<'source>>>, Refusal>
    ensures parsed { let table = tokens.old.spans in
        ParsedAs (λ n. statement_node_of (statements.CallBlock n)) (call_by table (here table left) span tokens.old.left)
        tokens.new.left result }
    ensures spans { KeepsSpans tokens.old tokens.new }
{
    let head = declarations::read_call::<R>(alloc, tokens, left)?;
    let body = ended_body::<R>(alloc, tokens, left, Around::within_macro(), "endcall")?;
    Ok(declarations::call_block(alloc, head, body, tokens.expand_span(span))?)
}
