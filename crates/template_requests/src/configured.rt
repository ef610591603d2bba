//! The syntax that a request sets.
ghost use Rattle.std.specs.Prelude.{◌≡◌, ◌∷◌, ◌⊎◌, [], IfErr, IfOk, OnOk, codes, option_map, unwrap_or};
ghost use Rattle.template_values_errors.specs.Memory.{NoMemory};
ghost use Rattle.template_compiler_syntax.specs.Syntax.{IsUsable, default_syntax};
ghost use Rattle.template_requests.specs.Syntaxes.{RefusesSyntax, syntax_of as syntax_for, syntax_with, text_or as given_or};

use crate::syntax::SyntaxParts;
use std::alloc::Global;
use template_compiler_syntax::{SyntaxConfig, SyntaxConfigBuilder};
use template_values_errors::{Error, ErrorKind};

/// The syntax that the parts set, if there are any: else none, which is the default one.
///
/// # Errors
///
/// `InvalidDelimiter`, if a delimiter is empty, or two of the starts and prefixes that are set are equal; `OutOfMemory`.
pub fn syntax_of(
    alloc: Global,
    parts: Option<SyntaxParts<'_>>,
) -> Result<Option<SyntaxConfig>, Error>
    ensures syntax { IfOk result (λ syntax. unwrap_or syntax default_syntax ≡ syntax_for parts.entry) }
    ensures refused { IfErr result (RefusesSyntax (syntax_for parts.entry)) }
{
    match parts {
        None => Ok(None),
        Some(parts) => Ok(Some(built(alloc, &parts)?)),
    }
}

// The syntax of the parts, put together.
fn built(alloc: Global, parts: &SyntaxParts<'_>) -> Result<SyntaxConfig, Error>
    ensures syntax { IfOk result (λ syntax. syntax ≡ syntax_with parts.now) }
    ensures refused { IfErr result (RefusesSyntax (syntax_with parts.now)) }
{
    let mut builder = SyntaxConfig::builder(alloc);
    set_delimiters(parts, &mut builder)?;
    set_prefixes(parts, &mut builder)?;
    builder.trim_blocks(parts.trim_blocks);
    builder.lstrip_blocks(parts.lstrip_blocks);
    builder.keep_trailing_newline(parts.keep_trailing_newline);
    builder.scoped_blocks(parts.scoped_blocks);
    builder.build()
}

// Sets the delimiters that are given, and else those of the default syntax.
fn set_delimiters(parts: &SyntaxParts<'_>, builder: &mut SyntaxConfigBuilder) -> Result<(), Error>
    ensures set { OnOk result (builder.new ≡ record builder.old {
      block_start = given_or parts.now.block_start (codes "{%");
      block_end = given_or parts.now.block_end (codes "%}");
      variable_start = given_or parts.now.variable_start (codes "{{");
      variable_end = given_or parts.now.variable_end (codes "}}");
      comment_start = given_or parts.now.comment_start (codes "{#");
      comment_end = given_or parts.now.comment_end (codes "#}");
    }) }
    ensures refused { IfErr result NoMemory }
{
    builder.block_delimiters(
        parts.block_start.unwrap_or("{%"),
        parts.block_end.unwrap_or("%}"),
    )?;
    builder.variable_delimiters(
        parts.variable_start.unwrap_or("{{"),
        parts.variable_end.unwrap_or("}}"),
    )?;
    builder.comment_delimiters(
        parts.comment_start.unwrap_or("{#"),
        parts.comment_end.unwrap_or("#}"),
    )
}

// Sets the prefixes that are given, and else none.
fn set_prefixes(parts: &SyntaxParts<'_>, builder: &mut SyntaxConfigBuilder) -> Result<(), Error>
    ensures set { OnOk result (builder.new ≡ record builder.old {
      line_statement_prefix = given_or parts.now.line_statement_prefix [];
      line_comment_prefix = given_or parts.now.line_comment_prefix [];
    }) }
    ensures refused { IfErr result NoMemory }
{
    builder.line_statement_prefix(parts.line_statement_prefix.unwrap_or(""))?;
    builder.line_comment_prefix(parts.line_comment_prefix.unwrap_or(""))
}
