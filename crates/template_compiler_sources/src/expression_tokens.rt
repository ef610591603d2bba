//! The tokens of an expression's text.
ghost use Rattle.std.specs.Prelude.{◌≡◌, ℕ, ◌≤◌, IfOk, IfErr, length, take, drop};
ghost use Rattle.template_compiler_sources.specs.Spelled.{HoldsSpelled};
ghost use Rattle.template_compiler_stream.specs.declared.refusal.Refusal.TheVariants as refusals;

use crate::refusals::fault_of;
use std::alloc::Global;
use template_compiler_scanner::scan_token;
use template_compiler_stream::{Refusal, TokenStream};
use template_compiler_tokens::Place;

/// Reads a text as tokens alone, with white space between them, and what stands behind them where that is none. Linear.
///
/// # Errors
///
/// Want of memory.
pub fn read_expression_tokens<'source>(
    alloc: Global,
    text: &'source str,
) -> Result<TokenStream<'source>, Refusal>
    ensures tokens { IfOk result (λ stream. HoldsSpelled text.now stream) }
    ensures refused { IfErr result (λ refusal. refusal ≡ refusals.OutOfMemory) }
{
    let mut tokens = Vec::new(alloc);
    let mut place = Place::start();
    let mut rest = text;
    loop {
        let behind_blanks = rest.trim_ascii_start();
        if behind_blanks.is_empty() {
            return Ok(TokenStream::new(tokens, None));
        }
        let start = place.after(blanks_before(rest, behind_blanks));
        match scan_token(alloc, behind_blanks) {
            Ok((token, width)) => {
                let (word, behind) = behind_blanks.split_at(width);
                let end = start.after(word);
                tokens.push((token, start.to(end)))?;
                place = end;
                rest = behind;
            }
            Err(kind) => match fault_of(kind) {
                Some(fault) => return Ok(TokenStream::new(tokens, Some(fault))),
                None => return Err(Refusal::OutOfMemory),
            },
        }
    }
}

// The beginning of a text that another text stands behind.
fn blanks_before<'text>(text: &'text str, behind: &str) -> &'text str
    ensures { (n : ℕ) → n ≤ length text.now → behind.now ≡ drop n text.now → result.now ≡ take n text.now }
{
    text.get(..text.len().saturating_sub(behind.len()))
        .unwrap_or("")
}
