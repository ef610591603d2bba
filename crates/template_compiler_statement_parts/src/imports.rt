//! Imported names.
ghost use Rattle.template_compiler_tokens.specs.Steps.{and_then, all};
ghost use Rattle.template_compiler_statement_parts.specs.Parsed.{ParsedAs, SteppedTo, ParsedInto};
ghost use Rattle.template_compiler_grammar.specs.TemplateReaderParts.{more_step};
ghost use Rattle.template_compiler_grammar.specs.TemplateNodes.{no_placed_imports};
ghost use Rattle.template_compiler_grammar.specs.TemplateReader.{import_by};
ghost use Rattle.template_compiler_grammar.specs.Views.{placed_imports_in};
ghost use Rattle.template_compiler_stream.specs.Spans.{KeepsSpans};

use crate::growth::put;
use crate::names::read_stored;
use std::alloc::Global;
use template_compiler_stream::{Refusal, TokenStream};
use template_compiler_tokens::Sign;
use template_compiler_tree::Expr;

/// Reads the names that are imported, each perhaps with an alias.
///
/// # Errors
///
/// The fault of the token that does not fit, or want of memory.
#[tactic(auto, unfolding(template_compiler_tokens::specs::Steps::and_then))]
pub fn read_imports<'source>(
    alloc: Global,
    tokens: &mut TokenStream<'source>,
) -> Result<Vec<(Expr<'source>, Option<Expr<'source>>)>, Refusal>
    ensures parsed { let table = tokens.old.spans in
        ParsedAs (λ v. placed_imports_in v.items)
        (and_then (import_by table no_placed_imports tokens.old.left) (all (more_step (import_by table)))) tokens.new.left result }
    ensures spans { KeepsSpans tokens.old tokens.new }
{
    let mut names = Vec::new(alloc);
    read_imported(tokens, &mut names)?;
    all_imported(tokens, &mut names)?;
    Ok(names)
}

#[tactic(auto, using(crate::proofs::Parts::import_next), unfolding(crate::proofs::Opened::import_read))]
fn read_imported<'source>(
    tokens: &mut TokenStream<'source>,
    names: &mut Vec<(Expr<'source>, Option<Expr<'source>>)>,
) -> Result<(), Refusal>
    ensures parsed { ParsedInto (import_by tokens.old.spans (placed_imports_in names.old.items) tokens.old.left)
        (placed_imports_in names.new.items) tokens.new.left result }
    ensures spans { KeepsSpans tokens.old tokens.new }
{
    let name = read_stored(tokens)?;
    if tokens.skip_word("as") {
        let alias = read_stored(tokens)?;
        put(names, (name, Some(alias)))
    } else {
        put(names, (name, None))
    }
}

fn all_imported<'source>(
    tokens: &mut TokenStream<'source>,
    names: &mut Vec<(Expr<'source>, Option<Expr<'source>>)>,
) -> Result<(), Refusal>
    ensures parsed { ParsedInto (all (more_step (import_by tokens.old.spans)) (placed_imports_in names.old.items) tokens.old.left)
        (placed_imports_in names.new.items) tokens.new.left result }
    ensures spans { KeepsSpans tokens.old tokens.new }
{
    loop {
        match next_imported(tokens, names) {
            Ok(true) => {}
            Ok(false) => return Ok(()),
            Err(refusal) => return Err(refusal),
        }
    }
}

#[tactic(auto, using(crate::proofs::Standing::no_more), unfolding(crate::proofs::Opened::more_read))]
fn next_imported<'source>(
    tokens: &mut TokenStream<'source>,
    names: &mut Vec<(Expr<'source>, Option<Expr<'source>>)>,
) -> Result<bool, Refusal>
    ensures parsed { SteppedTo (more_step (import_by tokens.old.spans) (placed_imports_in names.old.items) tokens.old.left)
        (placed_imports_in names.old.items) tokens.old.left (placed_imports_in names.new.items) tokens.new.left result }
    ensures spans { KeepsSpans tokens.old tokens.new }
{
    if tokens.skip(Sign::Comma) {
        read_imported(tokens, names)?;
        Ok(true)
    } else {
        Ok(false)
    }
}
