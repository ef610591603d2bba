//! A call of `changed`.
ghost use Rattle.std.specs.Prelude.{◌≡◌};
ghost use Rattle.std.specs.List.{position};
ghost use Rattle.template_machine_tables.specs.Calls.{is_for};

use std::marker::Model;
use template_values_core::Value;

/// What `changed` was called with last for the loop of a number.
#[derive(Drop)]
pub(crate) struct Call {
    number: usize,
    args: Vec<Value>,
}

impl Model for Call {
    ghost use Rattle.std.specs.Prelude.{ℕ, List};
    ghost use Rattle.template_values_model.specs.Val.{Val};
    ghost use Rattle.template_machine_tables.specs.RecordCodes.{call_code};

    ghost Value = { ℕ × List Val };

    ghost coded = { call_code };

    ghost view = { λ c. (c.number, c.args.items) };
}

impl Call {
    /// A call for the loop of a number.
    pub(crate) fn new(number: usize, args: Vec<Value>) -> Call
        ensures { result ≡ (number, args.items) }
    {
        Call { number, args }
    }

    /// Whether it was for the loop of that number.
    fn is_for(&self, number: usize) -> bool
        ensures { result ≡ is_for number self.now }
    {
        self.number == number
    }

    /// The arguments.
    pub(crate) fn args(&self) -> &[Value]
        ensures { result.now ≡ self.now.1 }
    {
        self.args.as_slice()
    }
}

// Where the call for the loop of a number stands.
pub(crate) fn position(calls: &[Call], number: usize) -> Option<usize>
    ensures { result ≡ position (is_for number) calls.now }
{
    for (place, call) in calls.iter().enumerate() {
        if call.is_for(number) {
            return Some(place);
        }
    }
    None
}
