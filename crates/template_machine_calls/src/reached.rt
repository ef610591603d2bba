//! What calls come to.
use template_values_core::Value;

/// What is made of the value of a further call.
#[derive(Clone, Copy)]
pub enum Turning {
    /// A truth value.
    Truth,
    /// The text that it prints, which is safe where an escape is in force.
    Text,
}

/// A run within that a call enters.
#[derive(Drop)]
pub enum Entering {
    /// The body of the macro of a number, of the state of an id, over arguments.
    Macro(u64, usize, Vec<Value>),
    /// The rounds of the loop of a number, of the state of an id, over the one of the arguments.
    Rounds(u64, usize, Vec<Value>),
    /// The block of a name, for its text.
    Block(String),
}

/// What a call enters, and what is made of the value that it comes to.
#[derive(Drop)]
pub struct Entry {
    /// What is entered.
    pub entering: Entering,
    /// How many further calls are pending, each of which counts as a level.
    pub pending: usize,
    /// What is made of its value, the last one first.
    pub turnings: Vec<Turning>,
}

/// What a call comes to.
#[derive(Drop)]
pub enum Reached {
    /// A value, and what is made of it, the last one first.
    Value(Value, Vec<Turning>),
    /// A run within.
    Enters(Entry),
}
