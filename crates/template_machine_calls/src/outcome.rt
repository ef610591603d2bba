//! What calls come to so far.
use crate::reached::Entering;
use template_callables::Further;
use template_values_core::Value;

/// What a call comes to so far.
#[derive(Drop)]
pub(crate) enum Outcome {
    /// A value.
    Value(Value),
    /// What this comes to, which the machine does next.
    Further(Further),
    /// What a run within gives.
    Enters(Entering),
}
