//! The digits of decimals.
ghost use Rattle.std.specs.Prelude.{◌≡◌, ◌+◌, ◌++◌, ◌<◌, ◌^◌, IfOk, OnOk, length, replicate};
ghost use Rattle.template_builtins_decimals.specs.Fixed as fixed;
ghost use Rattle.template_builtins_decimals.specs.Seen.{seen};

use crate::reading::Decimal;
use std::alloc::{AllocError, Global};

impl Decimal<'_> {
    /// How many digits stand behind the point once it is moved.
    pub(crate) fn places(&self) -> usize
        ensures places { result ≡ fixed.places_behind (length self.now.fraction.now) self.now.exponent }
        ensures most { result < 2 ^ 63 + 2 ^ 8 }
    {
        let count = self.fraction.len();
        if self.exponent < 0 {
            count + self.exponent.unsigned_abs() as usize
        } else {
            count.saturating_sub(self.exponent as usize)
        }
    }

    // How many zeros the point passes behind the digits.
    fn zeros_passed(&self) -> usize
        ensures { result ≡ fixed.zeros_passed (length self.now.fraction.now) self.now.exponent }
    {
        if self.exponent < 0 {
            0
        } else {
            (self.exponent as usize).saturating_sub(self.fraction.len())
        }
    }

    /// The digits before and behind the point, behind so many zeros. Linear in their number.
    pub(crate) fn digits(&self, alloc: Global, zeros: usize) -> Result<Vec<u8>, AllocError>
        ensures { IfOk result (λ v. v.items ≡ fixed.all_digits zeros (seen self.now)) }
    {
        let mut digits = Vec::new(alloc);
        push_zeros(alloc, &mut digits, zeros)?;
        digits.extend_from_slice(self.whole)?;
        digits.extend_from_slice(self.fraction)?;
        push_zeros(alloc, &mut digits, self.zeros_passed())?;
        Ok(digits)
    }
}

/// Appends so many zeros.
pub(crate) fn push_zeros(
    alloc: Global,
    digits: &mut Vec<u8>,
    count: usize,
) -> Result<(), AllocError>
    ensures { OnOk result (digits.new.items ≡ digits.old.items ++ replicate count 48) }
{
    let zeros = vec![in alloc; b'0'; count]?;
    digits.extend_from_slice(zeros.as_slice())
}
