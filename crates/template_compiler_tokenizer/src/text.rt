// The text of a template in its source.
ghost use Rattle.std.specs.Prelude.{◌≡◌, ◌<◌, ◌≤◌, length};
ghost use Rattle.template_compiler_syntax.specs.Flat.{template_text as the_template_text};
ghost use Rattle.template_compiler_syntax.specs.Places.{less_final};

use template_compiler_syntax::SyntaxConfig;

/// The source without one final newline, and then without one final carriage return, unless the syntax keeps them.
pub(crate) fn template_text<'source>(source: &'source str, syntax: &SyntaxConfig) -> &'source str
    ensures { result.now ≡ the_template_text syntax.now source.now }
{
    if syntax.keep_trailing_newline() {
        source
    } else {
        without_final(without_final(source, b'\n'), b'\r')
    }
}

fn without_final(text: &str, byte: u8) -> &str
    requires ascii { byte < 128 }
    requires nonzero { 0 < byte }
    ensures text { result.now ≡ less_final byte text.now }
    ensures bound { length result.now ≤ length text.now }
{
    match text.as_bytes() {
        [.., last] if *last == byte => text.split_at(text.len() - 1).0,
        _ => text,
    }
}
