//! What a run keeps to.

use template_values_errors::UndefinedBehavior;

/// What a run keeps to, and no template changes.
#[derive(Clone, Copy)]
pub struct Rules<'env> {
    /// The name of what is rendered or evaluated.
    pub name: &'env str,
    /// How deep it may be.
    pub limit: usize,
    /// What may be done with undefined values.
    pub undefined: UndefinedBehavior,
}
