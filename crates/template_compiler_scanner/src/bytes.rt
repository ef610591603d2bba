//! Bytes of a text, and what they begin.
ghost use Rattle.std.specs.Prelude.{◌≡◌, ◌<◌, true, length, slice_index};
ghost use Rattle.std.specs.List.{prefix_len};
ghost use Rattle.template_compiler_tokens.specs.Lexical.{is_name_start as name_start, is_name_part as name_part, class_of as the_class};

/// The byte at the place, or 0 past the text's end.
#[inline]
pub fn byte_at(text: &[u8], at: usize) -> u8
    ensures byte { result ≡ slice_index text.now at }
    ensures within { 0 < result → at < length text.now }
{
    text.get(at).copied().unwrap_or(0)
}

/// A name may begin with the byte.
#[tactic(auto, unfolding(template_compiler_tokens::specs::Lexical::is_name_start))]
pub fn is_name_start(byte: u8) -> bool
    ensures { result ≡ name_start byte }
{
    byte.is_ascii_lowercase() || byte.is_ascii_alphabetic() || byte == b'_'
}

/// The byte may stand in a name. Most are small letters, which are asked for first.
#[tactic(auto, unfolding(template_compiler_tokens::specs::Lexical::is_name_part))]
pub fn is_name_part(byte: u8) -> bool
    ensures { result ≡ name_part byte }
{
    byte.is_ascii_lowercase() || (byte >= b'0' && (byte.is_ascii_alphanumeric() || byte == b'_'))
}

/// How many of the first bytes may stand in a name.
pub fn name_len(text: &[u8]) -> usize
    ensures { result ≡ prefix_len name_part text.now }
{
    for (index, byte) in text.iter().enumerate() {
        if !is_name_part(*byte) {
            return index;
        }
    }
    text.len()
}

/// The same of a text that begins with a byte of a name.
#[inline(always)]
pub fn begun_name_len(text: &[u8]) -> usize
    requires { name_part (slice_index text.now 0) ≡ true }
    ensures { result ≡ prefix_len name_part text.now }
{
    1 + name_len(text.split_at(1).1)
}
