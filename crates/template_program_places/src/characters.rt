//! The characters of UTF-8, as bytes.
ghost use Rattle.std.specs.Prelude.{◌≤◌, length};

/// Whether a character begins with the byte: it is no continuation byte.
pub(crate) fn begins_character(byte: u8) -> bool {
    byte & 0xc0 != 0x80
}

/// How many characters begin in the bytes.
pub(crate) fn count_characters(bytes: &[u8]) -> usize {
    let mut count: usize = 0;
    for byte in bytes {
        if begins_character(*byte) {
            count = count.saturating_add(1);
        }
    }
    count
}

/// The first `limit` characters, or all where there are no more.
pub(crate) fn first_characters(bytes: &[u8], limit: usize) -> &[u8]
    ensures { length result.now ≤ length bytes.now }
{
    let mut left = limit;
    for (place, byte) in bytes.iter().enumerate() {
        if begins_character(*byte) {
            if left == 0 {
                return &bytes[..place];
            }
            left -= 1;
        }
    }
    bytes
}

/// The last `limit` characters, or all where there are no more; at least one.
pub(crate) fn last_characters(bytes: &[u8], limit: usize) -> &[u8]
    ensures { length result.now ≤ length bytes.now }
{
    let mut left = limit;
    for back in 0..bytes.len() {
        let place = bytes.len() - 1 - back;
        if begins_character(bytes[place]) {
            if left <= 1 {
                return &bytes[place..];
            }
            left -= 1;
        }
    }
    bytes
}
