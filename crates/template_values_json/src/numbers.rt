//! Whole numbers.
ghost use Rattle.std.specs.Prelude.{◌≡◌, ◌<◌, ◌==◌, IsTrue, false, true, length, option_and_then, slice_index};
ghost use Rattle.serde_json.specs.Find.{as_integer};
ghost use Rattle.serde_json.specs.Read.{number_from};
ghost use Rattle.template_values_json.specs.Whole.{whole_in};

use fast_float::Numeral;

/// The whole number of 64 bits, with or without a sign, that the digits of JSON are: none for another one, as `1.0`, `1e3` and `-0`
/// are. Linear in the digits.
pub fn whole_in(bytes: &[u8]) -> Option<i128>
    ensures { result ≡ whole_in bytes.now }
{
    if has_minus(bytes) {
        whole_below_zero(&Numeral::scan(&bytes[1..]))
    } else {
        whole_from_zero(&Numeral::scan(bytes))
    }
}

fn has_minus(bytes: &[u8]) -> bool
    ensures value { result ≡ (slice_index bytes.now 0 == 45) }
    ensures len { IsTrue result → 0 < length bytes.now }
{
    !bytes.is_empty() && bytes[0] == b'-'
}

#[tactic(auto, using(crate::proofs::Wholes::no_whole))]
fn whole_from_zero(numeral: &Numeral<'_>) -> Option<i128>
    ensures { result ≡ option_and_then as_integer (number_from false numeral.now) }
{
    match numeral.to_u64() {
        Some(whole) => Some(whole as i128),
        None => None,
    }
}

// `-0` is no whole number, as `serde_json` reads it.
#[tactic(auto, using(crate::proofs::Wholes::no_whole))]
fn whole_below_zero(numeral: &Numeral<'_>) -> Option<i128>
    ensures { result ≡ option_and_then as_integer (number_from true numeral.now) }
{
    match numeral.to_i64(true) {
        Some(whole) if whole < 0 => Some(whole as i128),
        _ => None,
    }
}
