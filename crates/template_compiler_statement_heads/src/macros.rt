//! Macros and call blocks: their heads, and what is made of a head and a body.
ghost use Rattle.std.specs.Prelude.{◌≡◌, IfOk};
ghost use Rattle.template_compiler_statement_heads.specs.DeclarationHeads.{call_head, call_of, declared_head, macro_head, macro_of};
ghost use Rattle.template_compiler_statement_makers.specs.Listed.{statement_nodes_in};
ghost use Rattle.template_compiler_statement_parts.specs.Parsed.{ParsedAs};
ghost use Rattle.template_compiler_grammar.specs.TemplateNodes.{call_block_node, macro_node};
ghost use Rattle.template_compiler_grammar.specs.TemplateReader.{here};
ghost use Rattle.template_compiler_grammar.specs.Views.{statement_node_of};
ghost use Rattle.template_compiler_tree_statements.specs.declared.statements.Stmt.TheVariants as statements;
ghost use Rattle.template_compiler_stream.specs.Spans.{KeepsSpans};

use std::alloc::{AllocError, Global};
use template_compiler_statement_makers::makers;
use template_compiler_statement_parts::{
    Parameters, ReadsExpressions, expect_tag_end, is_reserved, read_deeper_parameters,
    read_optional_parameters,
};
use template_compiler_stream::{Fault, Refusal, TokenStream};
use template_compiler_tokens::Sign;
use template_compiler_tree::{Call, Span, Spanned};
use template_compiler_tree_statements::{CallBlock, Macro, Stmt};

/// The head of a macro.
#[derive(Drop)]
pub struct MacroHead<'source> {
    pub name: &'source str,
    pub parameters: Parameters<'source>,
}

/// The head of a call block.
#[derive(Drop)]
pub struct CallHead<'source> {
    pub parameters: Parameters<'source>,
    pub call: Box<Spanned<Call<'source>>>,
}

/// Reads the head of a macro.
///
/// ```text
/// field(name, kind="text", required=false) %}
/// ```
///
/// # Errors
///
/// The fault of the token that does not fit, or want of memory.
#[tactic(auto, using(crate::proofs::Named::macro_here, crate::proofs::Named::no_paren, crate::proofs::Named::no_macro))]
pub fn read_macro<'source, R: ReadsExpressions>(
    alloc: Global,
    tokens: &mut TokenStream<'source>,
    left: u32,
) -> Result<MacroHead<'source>, Refusal>
    ensures parsed { let table = tokens.old.spans in
        ParsedAs macro_of (macro_head (here table left) tokens.old.left) tokens.new.left result }
    ensures spans { KeepsSpans tokens.old tokens.new }
{
    match tokens.word() {
        Some(name) => {
            tokens.advance();
            if !tokens.skip(Sign::ParenOpen) {
                return Err(Refusal::Token(tokens.fault()));
            }
            if is_reserved(name) {
                return Err(Refusal::Token(Fault::Syntax));
            }
            read_declared::<R>(alloc, tokens, left, name)
        }
        None => Err(Refusal::Token(tokens.fault())),
    }
}

// The head of a macro, behind the `(` of its arguments.
#[tactic(auto, using(template_compiler_statement_parts::proofs::Again::tag_end_again), unfolding(template_compiler_tokens::specs::Steps::and_then, template_compiler_grammar::specs::TemplateReader::here, template_compiler_grammar::specs::TemplateReader::here_by))]
fn read_declared<'source, R: ReadsExpressions>(
    alloc: Global,
    tokens: &mut TokenStream<'source>,
    left: u32,
    name: &'source str,
) -> Result<MacroHead<'source>, Refusal>
    ensures parsed { let table = tokens.old.spans in
        ParsedAs macro_of (declared_head (here table left) name.now tokens.old.left) tokens.new.left result }
    ensures spans { KeepsSpans tokens.old tokens.new }
{
    let parameters = read_deeper_parameters::<R>(alloc, tokens, left)?;
    expect_tag_end(tokens)?;
    Ok(MacroHead { name, parameters })
}

/// Reads the head of a call block.
///
/// ```text
/// (row, index=0) table(rows) %}
/// table(rows) %}
/// ```
///
/// # Errors
///
/// The fault of the token that does not fit, or want of memory.
#[tactic(auto, using(template_compiler_statement_parts::proofs::Calls::call_here, template_compiler_statement_parts::proofs::Calls::no_call, template_compiler_statement_parts::proofs::Again::tag_end_again), unfolding(template_compiler_tokens::specs::Steps::and_then, template_compiler_grammar::specs::TemplateReader::here, template_compiler_grammar::specs::TemplateReader::here_by))]
pub fn read_call<'source, R: ReadsExpressions>(
    alloc: Global,
    tokens: &mut TokenStream<'source>,
    left: u32,
) -> Result<CallHead<'source>, Refusal>
    ensures parsed { let table = tokens.old.spans in
        ParsedAs call_of (call_head table (here table left) tokens.old.left) tokens.new.left result }
    ensures spans { KeepsSpans tokens.old tokens.new }
{
    let parameters = read_optional_parameters::<R>(alloc, tokens, left)?;
    let expr = R::read_expression(alloc, tokens, left)?;
    match expr.into_call() {
        Some(call) => {
            expect_tag_end(tokens)?;
            Ok(CallHead { parameters, call })
        }
        None => Err(Refusal::Token(Fault::Syntax)),
    }
}

/// A macro with its body.
#[tactic(auto, using(template_compiler_statement_makers::proofs::Rows::statements_row))]
pub fn macro_block<'source>(
    alloc: Global,
    head: MacroHead<'source>,
    body: Vec<Stmt<'source>>,
    span: Span,
) -> Result<Box<Spanned<Macro<'source>>>, AllocError>
    ensures { let h = macro_of head.entry in IfOk result (λ n. statement_node_of (statements.Macro n) ≡
        macro_node h.1 h.0 (statement_nodes_in body.entry.items) span) }
{
    let node = Macro {
        name: head.name,
        args: head.parameters.args,
        defaults: head.parameters.defaults,
        body,
    };
    makers::macro_declared(alloc, node, span)
}

/// A call block with its body, which is the macro `caller`.
#[tactic(auto, using(template_compiler_statement_makers::proofs::Rows::statements_row))]
pub fn call_block<'source>(
    alloc: Global,
    head: CallHead<'source>,
    body: Vec<Stmt<'source>>,
    span: Span,
) -> Result<Box<Spanned<CallBlock<'source>>>, AllocError>
    ensures { let h = call_of head.entry in IfOk result (λ n. statement_node_of (statements.CallBlock n) ≡
        call_block_node h.2 h.3 h.1 h.0 (statement_nodes_in body.entry.items) span) }
{
    let node = Macro {
        name: "caller",
        args: head.parameters.args,
        defaults: head.parameters.defaults,
        body,
    };
    makers::call_block(alloc, head.call, node, span)
}
