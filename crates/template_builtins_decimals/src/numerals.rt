//! Texts of digits, and the numbers that they write.
ghost use Rattle.std.specs.Prelude.{◌≡◌, ◌+◌, ◌*◌, ◌≤◌};
ghost use Rattle.std.specs.Char.{digit_value, is_digit};
ghost use Rattle.std.specs.List.{list_all};
ghost use Rattle.template_builtins_numbers.specs.Wholes as wholes;

// No digit counts so much in a base.
const GREATEST_BASE: u32 = 36;

pub(crate) fn is_negative(text: &[u8]) -> bool
    ensures { result ≡ wholes.is_negative text.now }
{
    match text {
        [first, ..] => *first == b'-',
        [] => false,
    }
}

pub(crate) fn without_sign(text: &[u8]) -> &[u8]
    ensures { result.now ≡ wholes.without_sign text.now }
{
    match text {
        [first, rest @ ..] => {
            if *first == b'+' || *first == b'-' {
                rest
            } else {
                text
            }
        }
        [] => text,
    }
}

#[tactic(auto, unfolding(template_builtins_numbers::specs::Wholes::are_digits))]
pub(crate) fn are_digits(base: u32, text: &[u8]) -> bool
    requires least { 2 ≤ base }
    requires greatest { base ≤ 36 }
    ensures { result ≡ wholes.are_digits base text.now }
{
    !text.is_empty() && each_is_digit(base, text)
}

fn each_is_digit(base: u32, text: &[u8]) -> bool
    requires least { 2 ≤ base }
    requires greatest { base ≤ 36 }
    ensures { result ≡ list_all (λ c. is_digit c base) text.now }
{
    text.iter().all(|byte| char::from(*byte).is_digit(base))
}

pub(crate) fn spaced_value(base: u32, digits: &[u8]) -> Option<u128>
    requires { 2 ≤ base }
    ensures { wholes.IsCounted result (wholes.spaced_value base digits.now) }
{
    let mut total = 0;
    for byte in digits {
        total = digit_after(base, total, *byte)?;
    }
    Some(total)
}

// The number with one digit more; `_` is none.
fn digit_after(base: u32, total: u128, byte: u8) -> Option<u128>
    ensures { wholes.IsCounted result (wholes.digit_after base total byte) }
{
    if is_space(byte) {
        Some(total)
    } else {
        with_digit(total, base, byte)
    }
}

// The number with one digit more.
fn with_digit(total: u128, base: u32, digit: u8) -> Option<u128>
    ensures { wholes.IsCounted result (total * base + digit_value digit) }
{
    total
        .checked_mul(u128::from(base))?
        .checked_add(u128::from(value_of(digit)))
}

// What a digit counts, and 36 of another character.
fn value_of(digit: u8) -> u32
    ensures { result ≡ digit_value digit }
{
    char::from(digit)
        .to_digit(GREATEST_BASE)
        .unwrap_or(GREATEST_BASE)
}

fn is_space(byte: u8) -> bool
    ensures { result ≡ wholes.is_space byte }
{
    byte == b'_'
}
