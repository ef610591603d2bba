//! What instructions keep to.

use template_values_errors::UndefinedBehavior;

/// What instructions keep to that call nothing.
#[derive(Clone, Copy, Debug, PartialEq, Eq)]
pub struct Bounds {
    /// How deep a run may be.
    pub limit: usize,
    /// What may be done with undefined values.
    pub undefined: UndefinedBehavior,
}
