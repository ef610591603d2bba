//! What instructions cost of a fuel, and what was consumed of it.

ghost use Rattle.std.specs.Prelude.{◌≡◌, ◌≤◌, ◌+◌, ◌∷◌, [], ℕ, IfErr, OnOk, OnErr, Some, option_map};
ghost use Rattle.template_machine_going.specs.Paying.{Paid, IsSpent};

use template_values_errors::{Error, ErrorKind};

/// Takes the price of an instruction of what is left of a fuel, if one is set. A fuel n lets n - 1 steps run, and a fuel
/// of 0 none; what costs nothing always runs.
///
/// # Errors
///
/// [`ErrorKind::OutOfFuel`] where nothing is left behind the step; then nothing is left from then on.
pub fn charge(left: &mut Option<u64>, price: u64) -> Result<(), Error>
    requires { price ≤ 1 }
    ensures paid { OnOk result (Paid price left.old left.new) }
    ensures priced { OnErr result (price ≡ 1) }
    ensures spent { OnErr result (IsSpent left.old) }
    ensures nothing { OnErr result (left.new ≡ Some 0) }
    ensures kind { IfErr result (λ kinds. kinds ≡ ErrorKind.OutOfFuel ∷ []) }
{
    let Some(fuel) = *left else {
        return Ok(());
    };
    if price > 0 && fuel <= price {
        *left = Some(0);
        return Err(Error::new(ErrorKind::OutOfFuel));
    }
    *left = Some(fuel - price);
    Ok(())
}

/// What was consumed of a fuel, and what is left of it, where one was set.
pub fn levels(fuel: Option<u64>, left: Option<u64>) -> Option<(u64, u64)>
    requires { (price : ℕ) × Paid price fuel left }
    ensures remaining { option_map (λ levels. levels.1) result ≡ left }
    ensures sum { option_map (λ levels. levels.0 + levels.1) result ≡ fuel }
{
    match (fuel, left) {
        (Some(fuel), Some(left)) => Some((fuel - left, left)),
        _ => None,
    }
}
