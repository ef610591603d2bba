//! Whole numbers that texts write.
ghost use Rattle.std.specs.Prelude.{◌≡◌, ◌+◌, ◌*◌, ◌≤◌, pos, neg_ℤ};
ghost use Rattle.std.specs.Char.{digit_value, is_digit};
ghost use Rattle.std.specs.List.{list_all};
ghost use Rattle.template_builtins_numbers.specs.Wholes as wholes;
ghost use Rattle.template_values_operators.specs.Numbers.{in_range};

// No digit counts so much in a base.
const GREATEST_BASE: u32 = 36;

/// The whole number that a text writes in a base: a sign, the base's mark, and digits with single `_` between them; none where it is
/// another text or the number is none of the language. Linear in its length.
#[tactic(auto, unfolding(crate::specs::Wholes::whole_written))]
pub(crate) fn whole_written(base: u32, text: &[u8]) -> Option<i128>
    requires least { 2 ≤ base }
    requires greatest { base ≤ 36 }
    ensures { result ≡ wholes.whole_written base text.now }
{
    whole_in(
        is_negative(text),
        base,
        without_mark(base, without_sign(text)),
    )
}

pub(crate) fn is_negative(text: &[u8]) -> bool
    ensures { result ≡ wholes.is_negative text.now }
{
    match text {
        [first, ..] => *first == b'-',
        [] => false,
    }
}

pub(crate) fn without_sign(text: &[u8]) -> &[u8]
    ensures { result.now ≡ wholes.without_sign text.now }
{
    match text {
        [first, rest @ ..] => {
            if *first == b'+' || *first == b'-' {
                rest
            } else {
                text
            }
        }
        [] => text,
    }
}

fn without_mark(base: u32, text: &[u8]) -> &[u8]
    ensures { result.now ≡ wholes.without_mark base text.now }
{
    match text {
        [first, second, rest @ ..] => {
            if *first == b'0' && marks_base(base, *second) {
                rest
            } else {
                text
            }
        }
        _ => text,
    }
}

fn marks_base(base: u32, letter: u8) -> bool
    ensures { result ≡ wholes.marks_base base letter }
{
    base == 16 && (letter == b'x' || letter == b'X')
        || (base == 8 && (letter == b'o' || letter == b'O')
            || base == 2 && (letter == b'b' || letter == b'B'))
}

#[tactic(auto, using(crate::proofs::Digits::counted_signed), unfolding(crate::specs::Wholes::whole_in))]
fn whole_in(negative: bool, base: u32, digits: &[u8]) -> Option<i128>
    requires least { 2 ≤ base }
    requires greatest { base ≤ 36 }
    ensures { result ≡ wholes.whole_in negative base digits.now }
{
    if are_spaced_digits(base, digits) {
        signed(negative, spaced_value(base, digits))
    } else {
        None
    }
}

#[tactic(auto, unfolding(crate::specs::Wholes::are_spaced_digits))]
fn are_spaced_digits(base: u32, text: &[u8]) -> bool
    requires least { 2 ≤ base }
    requires greatest { base ≤ 36 }
    ensures { result ≡ wholes.are_spaced_digits base text.now }
{
    text.split(|byte| is_space(*byte))
        .all(|part| are_digits(base, part))
}

fn is_space(byte: u8) -> bool
    ensures { result ≡ wholes.is_space byte }
{
    byte == b'_'
}

#[tactic(auto, unfolding(crate::specs::Wholes::are_digits))]
pub(crate) fn are_digits(base: u32, text: &[u8]) -> bool
    requires least { 2 ≤ base }
    requires greatest { base ≤ 36 }
    ensures { result ≡ wholes.are_digits base text.now }
{
    !text.is_empty() && each_is_digit(base, text)
}

fn each_is_digit(base: u32, text: &[u8]) -> bool
    requires least { 2 ≤ base }
    requires greatest { base ≤ 36 }
    ensures { result ≡ list_all (λ c. is_digit c base) text.now }
{
    text.iter().all(|byte| char::from(*byte).is_digit(base))
}

pub(crate) fn spaced_value(base: u32, digits: &[u8]) -> Option<u128>
    requires { 2 ≤ base }
    ensures { wholes.IsCounted result (wholes.spaced_value base digits.now) }
{
    let mut total = 0;
    for byte in digits {
        total = digit_after(base, total, *byte)?;
    }
    Some(total)
}

// The number with one digit more; `_` is none.
fn digit_after(base: u32, total: u128, byte: u8) -> Option<u128>
    ensures { wholes.IsCounted result (wholes.digit_after base total byte) }
{
    if is_space(byte) {
        Some(total)
    } else {
        with_digit(total, base, byte)
    }
}

/// The number with one digit more.
pub(crate) fn with_digit(total: u128, base: u32, digit: u8) -> Option<u128>
    ensures { wholes.IsCounted result (total * base + digit_value digit) }
{
    total
        .checked_mul(u128::from(base))?
        .checked_add(u128::from(value_of(digit)))
}

// What a digit counts, and 36 of another character.
fn value_of(digit: u8) -> u32
    ensures { result ≡ digit_value digit }
{
    char::from(digit)
        .to_digit(GREATEST_BASE)
        .unwrap_or(GREATEST_BASE)
}

/// The number with its sign, where it is one of the language.
pub(crate) fn signed(negative: bool, magnitude: Option<u128>) -> Option<i128>
    ensures { result ≡ wholes.signed_counted negative magnitude }
{
    match magnitude {
        None => None,
        Some(magnitude) => signed_small(negative, magnitude),
    }
}

#[tactic(auto, unfolding(crate::specs::Wholes::signed))]
fn signed_small(negative: bool, magnitude: u128) -> Option<i128>
    ensures { result ≡ wholes.signed negative magnitude }
{
    if negative {
        negated(magnitude)
    } else {
        in_range(magnitude)
    }
}

#[tactic(auto, using(crate::proofs::Digits::negated_zero))]
fn negated(magnitude: u128) -> Option<i128>
    ensures { result ≡ in_range (neg_ℤ (pos magnitude)) }
{
    if magnitude == 0 {
        return Some(0);
    }
    let before = in_range(magnitude - 1)?;
    Some(-1 - before)
}

fn in_range(magnitude: u128) -> Option<i128>
    ensures { result ≡ in_range (pos magnitude) }
{
    if magnitude <= i128::MAX as u128 {
        Some(magnitude as i128)
    } else {
        None
    }
}
