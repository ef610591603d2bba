//! Where the reading of a source ends.
ghost use Rattle.std.specs.Prelude.{◌+◌, ◌/◌, ◌-◌, ◌<◌, ◌≤◌, ◌≡◌, List, IfOk};
ghost use Rattle.template_compiler_sources.specs.Ends.{EndsAt, HasTokens};
ghost use Rattle.template_compiler_tokens.specs.Token.{Token};

use crate::prefixes::Text;
use std::alloc::{AllocError, Global};

/// How many tokens of a refused source stand before the one at which its reading ends, or before the source's end. That is
/// near to so many as the refused reading passed, in most sources: then some three readings more tell it. In each source
/// about twice as many as the number of tokens can be halved do.
///
/// # Errors
///
/// Want of memory.
pub(crate) fn ends_at(alloc: Global, text: &Text<'_>, passed: usize) -> Result<usize, AllocError>
    ensures { IfOk result (λ k. (ts : List Token) → HasTokens text.now ts → EndsAt text.now ts k) }
{
    let count = text.count(alloc)?;
    let mut low = 0;
    let mut high = count;
    let mut next = passed;
    let mut step = 0_usize;
    while low < high {
        let place = between(low, high, next);
        if text.reaches(alloc, place, count)? {
            low = place;
            next = low.saturating_add(step).min(middle(low, high));
        } else {
            high = place - 1;
            next = high.saturating_sub(step).max(middle(low, high));
        }
        step = step.saturating_mul(2).saturating_add(1);
    }
    Ok(low)
}

// The number that is next, or the one closest to it above the low number and up to the high one.
fn between(low: usize, high: usize, next: usize) -> usize
    requires { low < high }
    ensures above { low < result }
    ensures within { result ≤ high }
    ensures next { low < next → next ≤ high → result ≡ next }
{
    if next <= low {
        low + 1
    } else if high < next {
        high
    } else {
        next
    }
}

fn middle(low: usize, high: usize) -> usize
    requires { low ≤ high }
    ensures { result ≡ low + (high - low) / 2 }
{
    low + (high - low) / 2
}
