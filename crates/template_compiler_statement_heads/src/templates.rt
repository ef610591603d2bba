//! Statements about other templates.
ghost use Rattle.template_compiler_statement_parts.specs.Parsed.{ParsedAs};
ghost use Rattle.template_compiler_grammar.specs.TemplateReader.{extends_by, from_by, here, import_statement_by, include_by};
ghost use Rattle.template_compiler_grammar.specs.Views.{statement_node_of};
ghost use Rattle.template_compiler_tree_statements.specs.declared.statements.Stmt.TheVariants as statements;
ghost use Rattle.template_compiler_stream.specs.Spans.{KeepsSpans};

use std::alloc::Global;
use template_compiler_statement_parts::{
    ReadsExpressions, expect_tag_end, expect_word, pass_context, read_imports, read_missing,
    read_stored,
};
use template_compiler_stream::{Refusal, TokenStream};
use template_compiler_tree::{Span, Spanned};
use template_compiler_tree_statements::{Extends, FromImport, Import, Include};

/// Reads an `import`.
///
/// # Errors
///
/// The fault of the token that does not fit, or want of memory.
#[tactic(auto, using(template_compiler_statement_parts::proofs::Again::tag_end_again, template_compiler_statement_parts::proofs::Again::word_again, template_compiler_statement_parts::proofs::Again::context_again), unfolding(template_compiler_tokens::specs::Steps::and_then, template_compiler_grammar::specs::TemplateReader::here, template_compiler_grammar::specs::TemplateReader::here_by, template_compiler_grammar::specs::TemplateReader::import_statement_by))]
pub fn read_import<'source, R: ReadsExpressions>(
    alloc: Global,
    tokens: &mut TokenStream<'source>,
    left: u32,
    span: Span,
) -> Result<Box<Spanned<Import<'source>>>, Refusal>
    ensures parsed { let table = tokens.old.spans in
        ParsedAs (λ n. statement_node_of (statements.Import n)) (import_statement_by table (here table left) span tokens.old.left)
        tokens.new.left result }
    ensures spans { KeepsSpans tokens.old tokens.new }
{
    let expr = R::read_expression(alloc, tokens, left)?;
    expect_word(tokens, "as")?;
    let name = read_stored(tokens)?;
    pass_context(tokens)?;
    expect_tag_end(tokens)?;
    let node = Import { expr, name };
    Ok(Spanned::boxed(alloc, node, tokens.expand_span(span))?)
}

/// Reads a `from`.
///
/// # Errors
///
/// The fault of the token that does not fit, or want of memory.
#[tactic(auto, using(template_compiler_statement_parts::proofs::Again::tag_end_again, template_compiler_statement_parts::proofs::Again::word_again, template_compiler_statement_parts::proofs::Again::context_again), unfolding(template_compiler_tokens::specs::Steps::and_then, template_compiler_grammar::specs::TemplateReader::here, template_compiler_grammar::specs::TemplateReader::here_by, template_compiler_grammar::specs::TemplateReader::from_by))]
pub fn read_from<'source, R: ReadsExpressions>(
    alloc: Global,
    tokens: &mut TokenStream<'source>,
    left: u32,
    span: Span,
) -> Result<Box<Spanned<FromImport<'source>>>, Refusal>
    ensures parsed { let table = tokens.old.spans in
        ParsedAs (λ n. statement_node_of (statements.FromImport n)) (from_by table (here table left) span tokens.old.left)
        tokens.new.left result }
    ensures spans { KeepsSpans tokens.old tokens.new }
{
    let expr = R::read_expression(alloc, tokens, left)?;
    expect_word(tokens, "import")?;
    let names = read_imports(alloc, tokens)?;
    pass_context(tokens)?;
    expect_tag_end(tokens)?;
    let node = FromImport { expr, names };
    Ok(Spanned::boxed(alloc, node, tokens.expand_span(span))?)
}

/// Reads an `extends`.
///
/// # Errors
///
/// The fault of the token that does not fit, or want of memory.
#[tactic(auto, using(template_compiler_statement_parts::proofs::Again::tag_end_again), unfolding(template_compiler_tokens::specs::Steps::and_then, template_compiler_grammar::specs::TemplateReader::here, template_compiler_grammar::specs::TemplateReader::here_by, template_compiler_grammar::specs::TemplateReader::extends_by))]
pub fn read_extends<'source, R: ReadsExpressions>(
    alloc: Global,
    tokens: &mut TokenStream<'source>,
    left: u32,
    span: Span,
) -> Result<Box<Spanned<Extends<'source>>>, Refusal>
    ensures parsed { let table = tokens.old.spans in
        ParsedAs (λ n. statement_node_of (statements.Extends n)) (extends_by table (here table left) span tokens.old.left)
        tokens.new.left result }
    ensures spans { KeepsSpans tokens.old tokens.new }
{
    let name = R::read_expression(alloc, tokens, left)?;
    expect_tag_end(tokens)?;
    Ok(Spanned::boxed(alloc, Extends { name }, tokens.expand_span(span))?)
}

/// Reads an `include`.
///
/// # Errors
///
/// The fault of the token that does not fit, or want of memory.
#[tactic(auto, using(template_compiler_statement_parts::proofs::Again::tag_end_again), unfolding(template_compiler_tokens::specs::Steps::and_then, template_compiler_grammar::specs::TemplateReader::here, template_compiler_grammar::specs::TemplateReader::here_by, template_compiler_grammar::specs::TemplateReader::include_by))]
pub fn read_include<'source, R: ReadsExpressions>(
    alloc: Global,
    tokens: &mut TokenStream<'source>,
    left: u32,
    span: Span,
) -> Result<Box<Spanned<Include<'source>>>, Refusal>
    ensures parsed { let table = tokens.old.spans in
        ParsedAs (λ n. statement_node_of (statements.Include n)) (include_by table (here table left) span tokens.old.left)
        tokens.new.left result }
    ensures spans { KeepsSpans tokens.old tokens.new }
{
    let name = R::read_expression(alloc, tokens, left)?;
    let ignore_missing = read_missing(tokens)?;
    expect_tag_end(tokens)?;
    let node = Include {
        name,
        ignore_missing,
    };
    Ok(Spanned::boxed(alloc, node, tokens.expand_span(span))?)
}
