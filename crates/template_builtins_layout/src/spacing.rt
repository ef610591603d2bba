//! Texts with single spaces.
ghost use Rattle.std.specs.Prelude.{◌≡◌, ◌++◌, IfOk, OnOk, string_bytes};
ghost use Rattle.std.specs.Str.{IsUtf8};
ghost use Rattle.std.specs.Str.Iter.{split_whitespace_rest};
ghost use Rattle.template_builtins_layout.specs.Spacing.{single_spaced, spaced};

use std::alloc::{AllocError, Global};
use std::str::SplitWhitespace;

// The words between white space, with one space between.
pub(crate) fn single_spaced(alloc: Global, text: &str) -> Result<String, AllocError>
    ensures { IfOk result (λ t. string_bytes t ≡ single_spaced text.now) }
{
    let mut out = String::new(alloc);
    let mut words = text.split_whitespace();
    let Some(first) = words.next() else {
        return Ok(out);
    };
    out.push_str(first)?;
    push_spaced(&mut out, words)?;
    Ok(out)
}

// Puts in the words that are left, each behind a space.
fn push_spaced(out: &mut String, words: SplitWhitespace<'_>) -> Result<(), AllocError>
    requires { IsUtf8 (split_whitespace_rest words) }
    ensures { OnOk result (string_bytes out.new ≡ string_bytes out.old ++ spaced (split_whitespace_rest words.entry)) }
{
    for word in words {
        out.push(' ')?;
        out.push_str(word)?;
    }
    Ok(())
}
