//! Texts as they stand in a URL.
ghost use Rattle.std.specs.Prelude.{◌≡◌, ◌++◌, ℕ, OnOk, not, string_bytes};
ghost use Rattle.percent_encoding.specs.AsciiSet.{should_percent_encode};
ghost use Rattle.template_builtins_web.specs.Urls.{escaped, is_kept};

use percent_encoding::{AsciiSet, NON_ALPHANUMERIC, ascii_set, utf8_percent_encode};
use std::alloc::AllocError;

// All but ASCII letters, digits and `_.-~`.
const ESCAPED_IN_QUERY: AsciiSet = ascii_set!(
    NON_ALPHANUMERIC
        .remove(b'_')
        .remove(b'.')
        .remove(b'-')
        .remove(b'~')
);

// The same but `/`.
const ESCAPED_IN_PATH: AsciiSet = ascii_set!(ESCAPED_IN_QUERY.remove(b'/'));

// Writes a text as it stands in a path or a query.
pub(crate) fn push_escaped(in_path: bool, text: &str, out: &mut String) -> Result<(), AllocError>
    ensures { OnOk result (string_bytes out.new ≡ string_bytes out.old ++ escaped in_path text.now) }
{
    utf8_percent_encode(text, escaped_set(in_path)).append_to(out)
}

fn escaped_set(in_path: bool) -> AsciiSet
    ensures { (b : ℕ) → should_percent_encode result b ≡ not (is_kept in_path b) }
{
    if in_path {
        ESCAPED_IN_PATH
    } else {
        ESCAPED_IN_QUERY
    }
}
