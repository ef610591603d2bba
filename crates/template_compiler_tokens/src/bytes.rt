//! What is asked of the places and the bytes of a source, whatever its syntax is, and of the starts that a syntax names.

ghost use Rattle.std.specs.Prelude.{◌≡◌, ◌↔◌, ◌<◌, ◌≤◌, ◌-◌, ◌⊎◌, IsTrue, SomeIff, drop, length, slice_index};
ghost use Rattle.std.specs.Str.{trim_start};

/// Whether what begins at a place and takes so many bytes goes before something else: it begins on its left, or where it
/// begins and is no shorter.
pub fn goes_before(place: usize, len: usize, other_place: usize, other_len: usize) -> bool
    ensures { IsTrue result ↔ ((place < other_place) ⊎ ((place ≡ other_place) × (other_len ≤ len))) }
{
    if place == other_place {
        other_len <= len
    } else {
        place < other_place
    }
}

/// The last byte between two places, where there is one.
pub fn last_between(bytes: &[u8], from: usize, to: usize) -> Option<u8>
    requires { to ≤ length bytes.now }
    ensures { SomeIff result (from < to) (slice_index bytes.now (to - 1)) }
{
    if from < to { Some(bytes[to - 1]) } else { None }
}

/// The text behind the white space that it begins with.
pub fn behind_white_space(text: &str) -> &str
    ensures text { result.now ≡ trim_start text.now }
    ensures bound { length result.now ≤ length text.now }
    ensures tail { result.now ≡ drop (length text.now - length result.now) text.now }
{
    text.trim_start()
}

/// Whether a code unit is the second one of a pair.
pub fn is_low_surrogate(unit: u32) -> bool
    ensures { IsTrue result ↔ ((56320 ≤ unit) × (unit < 57344)) }
{
    0xdc00 <= unit && unit < 0xe000
}
