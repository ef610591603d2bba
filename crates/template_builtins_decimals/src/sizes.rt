//! Numbers of bytes in the greatest unit that they reach.
ghost use Rattle.std.specs.Prelude.{◌≡◌, ◌≤◌, ◌^◌, IfOk, length, string_bytes};
ghost use Rattle.template_builtins_decimals.specs.Sizes as sizes;

use std::alloc::{AllocError, Global};

/// So many bytes, and the letter that stands for them.
#[derive(Clone, Copy)]
pub(crate) struct Unit {
    amount: u128,
    letter: char,
}

/// A number of bytes as `1 Byte`, `7 Bytes` or `1.2 MB`, with `binary` as `1.2 MiB`.
#[tactic(auto, unfolding(crate::specs::Sizes::size_text))]
pub(crate) fn size_text(alloc: Global, binary: bool, size: i128) -> Result<String, AllocError>
    ensures { IfOk result (λ s. string_bytes s ≡ sizes.size_text binary size) }
{
    if size < base_of(binary) as i128 {
        in_bytes(alloc, size)
    } else {
        in_greatest(alloc, binary, size.unsigned_abs())
    }
}

fn base_of(binary: bool) -> u128
    ensures { result ≡ sizes.base_of binary }
{
    if binary { 1024 } else { 1000 }
}

fn first_unit(binary: bool) -> Unit
    ensures { result ≡ sizes.first_unit binary }
{
    Unit {
        amount: base_of(binary),
        letter: if binary { 'K' } else { 'k' },
    }
}

fn further_letters() -> &'static [char]
    ensures { result.now ≡ sizes.further_letters }
{
    &['M', 'G', 'T', 'P', 'E', 'Z', 'Y']
}

fn in_bytes(alloc: Global, size: i128) -> Result<String, AllocError>
    ensures { IfOk result (λ s. string_bytes s ≡ sizes.in_bytes size) }
{
    let word = byte_word(size);
    format!(in alloc; "{size} {word}")
}

fn byte_word(size: i128) -> &'static str
    ensures { result.now ≡ sizes.byte_word size }
{
    if size == 1 { "Byte" } else { "Bytes" }
}

#[tactic(auto, unfolding(crate::specs::Sizes::in_greatest))]
fn in_greatest(alloc: Global, binary: bool, size: u128) -> Result<String, AllocError>
    requires { size ≤ 2 ^ 127 }
    ensures { IfOk result (λ s. string_bytes s ≡ sizes.in_greatest binary size) }
{
    let unit = greatest_unit(base_of(binary), size, first_unit(binary), further_letters());
    in_unit(alloc, binary, size, unit)
}

// The greatest of a unit and those of further letters that a number reaches. Each is the base times the one before it.
fn greatest_unit(base: u128, size: u128, first: Unit, letters: &[char]) -> Unit
    requires base_least { 1000 ≤ base }
    requires base_greatest { base ≤ 1024 }
    requires least { 1000 ≤ first.amount }
    requires greatest { first.amount ≤ 1024 }
    requires few { length letters.now ≤ 7 }
    ensures unit { result ≡ sizes.greatest_unit base size first letters.now }
    ensures least { 1000 ≤ result.amount }
    ensures greatest { result.amount ≤ 1024 ^ 8 }
{
    let mut unit = first;
    for letter in letters {
        if size / base < unit.amount {
            return unit;
        }
        unit = Unit {
            amount: unit.amount * base,
            letter: *letter,
        };
    }
    unit
}

#[tactic(auto, unfolding(crate::specs::Sizes::in_unit))]
fn in_unit(alloc: Global, binary: bool, size: u128, unit: Unit) -> Result<String, AllocError>
    requires least { 1000 ≤ unit.amount }
    requires greatest { unit.amount ≤ 1024 ^ 8 }
    requires size { size ≤ 2 ^ 127 }
    ensures { IfOk result (λ s. string_bytes s ≡ sizes.in_unit binary size unit) }
{
    let tenths = tenths(size, unit.amount);
    let whole = tenths / 10;
    let tenth = tenths % 10;
    let letter = unit.letter;
    let end = unit_end(binary);
    format!(in alloc; "{whole}.{tenth} {letter}{end}")
}

fn unit_end(binary: bool) -> &'static str
    ensures { result.now ≡ sizes.unit_end binary }
{
    if binary { "iB" } else { "B" }
}

// How many tenths of a unit a number is, half up.
fn tenths(size: u128, unit: u128) -> u128
    requires least { 1000 ≤ unit }
    requires greatest { unit ≤ 1024 ^ 8 }
    requires size { size ≤ 2 ^ 127 }
    ensures { result ≡ sizes.tenths size unit }
{
    size / unit * 10 + (size % unit * 10 + unit / 2) / unit
}
