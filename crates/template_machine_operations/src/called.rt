//! What calls come to.
use template_values_core::{Entry, Value};

/// What a call comes to.
#[derive(Drop)]
pub enum Called {
    /// A value.
    Value(Value),
    /// A namespace, which is to be made of these entries.
    Namespace(Vec<Entry>),
    /// The arguments are to be compared with those that `changed` was called with last for the loop of this number.
    Changed(usize),
    /// A function that a user gave to the environment is to be called: the one of this number.
    Function(usize),
    /// A macro is to be called: the one of this number, of the state of this id.
    Macro(u64, usize),
    /// The rounds of a loop are to be called: of the one of this number, of the state of this id.
    Rounds(u64, usize),
}
