//! Names, and whether they are the same.
ghost use Rattle.std.specs.Prelude.{◌≡◌, ◌≤◌, length, take};
ghost use Rattle.std.specs.Int.{from_le_bytes, w32};
ghost use Rattle.std.specs.Str.{bytes_eq};

// So many bytes are compared as one number.
const WORD: usize = 4;

/// Whether two texts are the same. It is meant for names, which are short, and mostly differ in length where they differ.
#[inline(always)]
pub fn is_same(text: &str, other: &str) -> bool
    ensures { result ≡ bytes_eq text.now other.now }
{
    if text.len() != other.len() {
        return false;
    }
    if other.len() < WORD {
        has_same_bytes(text.as_bytes(), other.as_bytes())
    } else {
        has_same_words(text.as_bytes(), other.as_bytes())
    }
}

// The same of so many bytes, one by one.
#[inline(always)]
fn has_same_bytes(bytes: &[u8], others: &[u8]) -> bool
    requires { length bytes.now ≡ length others.now }
    ensures { result ≡ bytes_eq bytes.now others.now }
{
    for (place, byte) in bytes.iter().enumerate() {
        if *byte != others[place] {
            return false;
        }
    }
    true
}

// The same, word by word. The last one may overlap the one before it.
#[inline(always)]
fn has_same_words(bytes: &[u8], others: &[u8]) -> bool
    requires long { length bytes.now ≡ length others.now }
    requires word { WORD ≤ length others.now }
    ensures { result ≡ bytes_eq bytes.now others.now }
{
    let last = others.len() - WORD;
    let mut place = 0;
    while place < last {
        if !has_same_word(&bytes[place..], &others[place..]) {
            return false;
        }
        place += WORD;
    }
    has_same_word(&bytes[last..], &others[last..])
}

// Whether the first words are the same.
#[inline(always)]
fn has_same_word(bytes: &[u8], others: &[u8]) -> bool
    requires word { WORD ≤ length bytes.now }
    requires other { WORD ≤ length others.now }
    ensures { result ≡ bytes_eq (take WORD bytes.now) (take WORD others.now) }
{
    first_word(bytes) == first_word(others)
}

// The first word as a number.
#[inline(always)]
fn first_word(bytes: &[u8]) -> u32
    requires { WORD ≤ length bytes.now }
    ensures { result ≡ from_le_bytes w32 (take WORD bytes.now) }
{
    u32::from_le_bytes([bytes[0], bytes[1], bytes[2], bytes[3]])
}
