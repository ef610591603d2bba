//! The tree of a template's source.
ghost use Rattle.std.specs.Prelude.{◌≡◌, ◌≤◌, ◌^◌, length, IfOk, IfErr, IsErrAnd};
ghost use Rattle.template_compiler_sources.specs.Source.{IsAlone, IsPlacedSource, IsSource, RefusesSource};
ghost use Rattle.template_values_errors.specs.declared.ErrorKind.TheVariants.{TooLarge};
ghost use Rattle.template_compiler_sources.specs.Wholes.{ParsedTemplate};
ghost use Rattle.template_compiler_grammar.specs.TemplateReader.{template_of};
ghost use Rattle.template_compiler_grammar.specs.Views.{statement_node_of};
ghost use Rattle.template_compiler_tree_statements.specs.View.{statement_of};

use crate::prefixes::Text;
use crate::refused::refused_at;
use crate::template::read_template;
use crate::{error_of, read_tokens};
use std::alloc::Global;
use template_compiler_stream::{Refusal, TokenStream};
use template_compiler_syntax::SyntaxConfig;
use template_compiler_tokenizer::Tokenizer;
use template_compiler_tree::Spanned;
use template_compiler_tree_statements::{Stmt, Template};
use template_values_errors::{Error, ErrorKind};

/// The tree of a template's source under a syntax, in linear time; each node has the span of its tokens. Texts and names
/// are slices of the source. The file name is for messages and places alone.
///
/// # Errors
///
/// `TooLarge` for a source of 2^32 bytes or more. Else the fault that the reading of its tokens ends with: `BadEscape` where
/// that is a text literal with an escape that is none, `NoFloats` where it is a number with a fraction or an exponent,
/// `SyntaxError` for any other. `OutOfMemory`.
///
/// The place of such a fault is the token at which the reading ends; else the first character behind the tokens and white
/// space that begins no token, or the source's end. To find it takes some four readings in most sources, and as many as the
/// logarithm of their number of tokens in the worst.
pub fn parse<'source>(
    alloc: Global,
    source: &'source str,
    filename: &'source str,
    syntax: SyntaxConfig,
) -> Result<Stmt<'source>, Error>
    ensures found { IfOk result (λ tree. IsSource syntax source.now (statement_of tree)) }
    ensures places { IfOk result (λ tree. IsPlacedSource syntax source.now (statement_node_of tree)) }
    ensures refused { IfErr result (RefusesSource syntax source.now) }
    ensures too_large { 2 ^ 32 ≤ length source.now → IsErrAnd result (IsAlone TooLarge) }
{
    if source.len() > u32::MAX as usize {
        return Err(Error::new(ErrorKind::TooLarge));
    }
    let text = Text::Template {
        source,
        filename,
        syntax: syntax.clone()?,
    };
    let scoped = syntax.scoped_blocks();
    let tokenizer = Tokenizer::new(alloc, source, filename, syntax);
    match read_tokens(alloc, tokenizer, scoped) {
        Ok(mut tokens) => match whole_template(alloc, &mut tokens) {
            Ok(template) => return Ok(Stmt::Template(template)),
            Err(refusal) => return Err(refused_at(alloc, &text, tokens.passed(), refusal)),
        },
        Err(refusal) => return Err(error_of(refusal)),
    }
}

/// Reads all tokens as a template, from its first token to its last.
pub(crate) fn whole_template<'source>(
    alloc: Global,
    tokens: &mut TokenStream<'source>,
) -> Result<Spanned<Template<'source>>, Refusal>
    ensures { ParsedTemplate (template_of tokens.old.spans tokens.old.left) result }
{
    let start = tokens.span();
    let children = read_template(alloc, tokens)?;
    let span = tokens.expand_span(start);
    Ok(Spanned::new(Template { children }, span))
}
