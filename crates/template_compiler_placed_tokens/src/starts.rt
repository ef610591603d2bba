//! Where the insides of segments begin.
ghost use Rattle.std.specs.Prelude.{◌≡◌, ◌≤◌, length};
ghost use Rattle.std.specs.Str.{IsCharBoundary};
ghost use Rattle.template_compiler_syntax.specs.Syntax.{start_text, IsSet};
ghost use Rattle.template_compiler_syntax.specs.Places.{StandsAt};
ghost use Rattle.template_compiler_syntax.specs.Segments.{inside_from as the_inside_from};

use template_compiler_syntax::{StartMarker, SyntaxConfig, start_sign};

/// Where the inside of the segment of the kind begins whose start marker stands at the place.
pub fn inside_from(source: &str, syntax: &SyntaxConfig, kind: StartMarker, place: usize) -> usize
    requires stands { StandsAt source.now place (start_text syntax.now kind) }
    requires set { IsSet (start_text syntax.now kind) }
    ensures place { result ≡ the_inside_from syntax.now source.now kind place }
    ensures start { IsCharBoundary source.now place }
    ensures cut { IsCharBoundary source.now result }
    ensures ahead { place ≤ result }
{
    let behind = place + syntax.start_text(kind).len();
    let sign = start_sign(source.as_bytes(), syntax, kind, place);
    behind + sign.width()
}
