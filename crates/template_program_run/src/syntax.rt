//! The syntax that the words set.
ghost use Rattle.std.specs.Prelude.{◌≡◌, ◌∷◌, ◌⊎◌, [], IfErr, IfOk, IsTrue, OnOk, codes, option_map, unwrap_or};
ghost use Rattle.template_values_errors.specs.Memory.{NoMemory};
ghost use Rattle.template_compiler_syntax.specs.Syntax.{IsUsable, default_syntax};
ghost use Rattle.template_program_run.specs.Asked.{SetNoText, syntax_set, text_or as given_or};

use std::alloc::Global;
use template_compiler_syntax::{SyntaxConfig, SyntaxConfigBuilder};
use template_program_words::SyntaxWords;
use template_values_errors::{Error, ErrorKind};

/// The syntax that the words set. Where they set nothing there is none, which takes no memory.
///
/// # Errors
///
/// `InvalidDelimiter`, if a delimiter is empty, or two of the starts and prefixes that are set are equal; `OutOfMemory`.
pub(crate) fn syntax_of(
    alloc: Global,
    words: &SyntaxWords<'_>,
) -> Result<Option<SyntaxConfig>, Error>
    ensures syntax { IfOk result (λ syntax. unwrap_or syntax default_syntax ≡ syntax_set words.now) }
    ensures usable { OnOk result (IsUsable (syntax_set words.now)) }
    ensures refused { IfErr result (λ kinds.
        ((kinds ≡ ErrorKind.InvalidDelimiter ∷ []) × ¬ IsUsable (syntax_set words.now)) ⊎ NoMemory kinds) }
{
    if set_nothing(words) {
        return Ok(None);
    }
    Ok(Some(built(alloc, words)?))
}

// Whether no word sets anything.
fn set_nothing(words: &SyntaxWords<'_>) -> bool
    ensures { IsTrue result → syntax_set words.now ≡ default_syntax }
{
    let spaces = words.trim_blocks || words.lstrip_blocks || words.keep_trailing_newline;
    let flags = spaces || words.scoped_blocks;
    !flags && set_no_text(words)
}

// Whether no word sets a delimiter or a prefix.
fn set_no_text(words: &SyntaxWords<'_>) -> bool
    ensures { IsTrue result → SetNoText words.now }
{
    let starts = words.block_start.is_none()
        && words.variable_start.is_none()
        && words.comment_start.is_none();
    let ends = words.block_end.is_none()
        && words.variable_end.is_none()
        && words.comment_end.is_none();
    starts && ends && words.line_statement.is_none() && words.line_comment.is_none()
}

// The syntax of the words, put together.
fn built(alloc: Global, words: &SyntaxWords<'_>) -> Result<SyntaxConfig, Error>
    ensures syntax { IfOk result (λ syntax. syntax ≡ syntax_set words.now) }
    ensures usable { OnOk result (IsUsable (syntax_set words.now)) }
    ensures refused { IfErr result (λ kinds.
        ((kinds ≡ ErrorKind.InvalidDelimiter ∷ []) × ¬ IsUsable (syntax_set words.now)) ⊎ NoMemory kinds) }
{
    let mut builder = SyntaxConfig::builder(alloc);
    set_delimiters(words, &mut builder)?;
    set_prefixes(words, &mut builder)?;
    builder.trim_blocks(words.trim_blocks);
    builder.lstrip_blocks(words.lstrip_blocks);
    builder.keep_trailing_newline(words.keep_trailing_newline);
    builder.scoped_blocks(words.scoped_blocks);
    builder.build()
}

// Sets the delimiters that the words set, and else those of the default syntax.
fn set_delimiters(words: &SyntaxWords<'_>, builder: &mut SyntaxConfigBuilder) -> Result<(), Error>
    ensures set { OnOk result (builder.new ≡ record builder.old {
      block_start = given_or words.now.block_start (codes "{%");
      block_end = given_or words.now.block_end (codes "%}");
      variable_start = given_or words.now.variable_start (codes "{{");
      variable_end = given_or words.now.variable_end (codes "}}");
      comment_start = given_or words.now.comment_start (codes "{#");
      comment_end = given_or words.now.comment_end (codes "#}");
    }) }
    ensures refused { IfErr result NoMemory }
{
    builder.block_delimiters(
        words.block_start.unwrap_or("{%"),
        words.block_end.unwrap_or("%}"),
    )?;
    builder.variable_delimiters(
        words.variable_start.unwrap_or("{{"),
        words.variable_end.unwrap_or("}}"),
    )?;
    builder.comment_delimiters(
        words.comment_start.unwrap_or("{#"),
        words.comment_end.unwrap_or("#}"),
    )
}

// Sets the prefixes that the words set, and else none.
fn set_prefixes(words: &SyntaxWords<'_>, builder: &mut SyntaxConfigBuilder) -> Result<(), Error>
    ensures set { OnOk result (builder.new ≡ record builder.old {
      line_statement_prefix = given_or words.now.line_statement [];
      line_comment_prefix = given_or words.now.line_comment [];
    }) }
    ensures refused { IfErr result NoMemory }
{
    builder.line_statement_prefix(words.line_statement.unwrap_or(""))?;
    builder.line_comment_prefix(words.line_comment.unwrap_or(""))
}
