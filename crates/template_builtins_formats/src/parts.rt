//! The parts of a directive that are stretches of some characters.
ghost use Rattle.std.specs.Prelude.{◌≡◌, ◌≤◌, length};
ghost use Rattle.std.specs.List.{position, position_or_len};
ghost use Rattle.template_builtins_formats.specs.Directives as directives;

/// A part of a directive.
#[derive(Clone, Copy)]
pub(crate) enum Part {
    /// The flags.
    Flags,
    /// The figures of a width or a precision.
    Figures,
}

/// The part at the start of a text, and what is behind it. Linear in its length.
#[tactic(auto, unfolding(crate::specs::Directives::front, crate::specs::Directives::behind))]
pub(crate) fn split_part(part: Part, text: &[u8]) -> (&[u8], &[u8])
    ensures front { result.0.now ≡ directives.front part text.entry.now }
    ensures behind { result.1.now ≡ directives.behind part text.entry.now }
{
    text.split_at(end_of(part, text))
}

// The place where the part ends.
fn end_of(part: Part, text: &[u8]) -> usize
    ensures place { result ≡ position_or_len (directives.ends part) text.now }
    ensures within { result ≤ length text.now }
{
    first_end(part, text).unwrap_or(text.len())
}

fn first_end(part: Part, text: &[u8]) -> Option<usize>
    ensures { result ≡ position (directives.ends part) text.now }
{
    text.iter().position(|byte| ends(part, *byte))
}

fn ends(part: Part, byte: u8) -> bool
    ensures { result ≡ directives.ends part byte }
{
    match part {
        Part::Flags => !is_flag(byte),
        Part::Figures => !char::from(byte).is_digit(10),
    }
}

fn is_flag(byte: u8) -> bool
    ensures { result ≡ directives.is_flag byte }
{
    byte == b'-' || byte == b'0' || byte == b'+' || byte == b'#' || byte == b' '
}
