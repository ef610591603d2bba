//! What callables answer.
use template_values_core::Value;
use template_values_errors::Error;

/// What a callable answers. Names with values, which are set among the temps of the run first, in turn, are given with it where
/// there are any.
#[derive(Drop)]
pub enum Answer {
    /// The call's value.
    Done(Option<Vec<(String, Value)>>, Value),
    /// The call's fault. Its kinds are those that the call fails with, whatever they are; `OutOfMemory` alone says that memory was
    /// refused.
    Fault(Error),
    /// The call comes to what this comes to, which the machine does next. As long as it has not, it counts as one level of depth.
    More(Option<Vec<(String, Value)>>, Further),
}

/// What is asked of the machine in the place of an answer.
#[derive(Drop)]
pub enum Further {
    /// A value is called with arguments.
    Call(Value, Vec<Value>),
    /// A filter is applied to arguments, the first of which is what is filtered. The name is taken as it stands.
    Filter(String, Vec<Value>),
    /// A test is asked of arguments, the first of which is what is tested; its answer is a truth value. The name is taken as it
    /// stands.
    Test(String, Vec<Value>),
    /// A name is looked up; it is undefined where it stands for nothing.
    Lookup(String),
    /// What a name stands for is called with arguments; what that comes to is printed to a text, which is safe where an escape is
    /// in force. A loop isn't called so.
    Macro(String, Vec<Value>),
    /// A block runs, whether or not the template extends another; its text is safe where an escape is in force.
    Block(String),
}

/// The value, with no temps.
impl From<Value> for Answer {
    ghost use Rattle.std.specs.Prelude.{◌≡◌, Ok};
    ghost use Rattle.template_callables.specs.Answers.{answer_of};

    ghost from_gives = { λ value answer. answer ≡ answer_of (Ok value) };

    fn from(value: Value) -> Answer {
        Answer::Done(None, value)
    }
}

/// The fault.
impl From<Error> for Answer {
    ghost use Rattle.std.specs.Prelude.{◌≡◌, Err};
    ghost use Rattle.template_callables.specs.Answers.{answer_of};

    ghost from_gives = { λ error answer. answer ≡ answer_of (Err error) };

    fn from(error: Error) -> Answer {
        Answer::Fault(error)
    }
}

/// The value with no temps, or the fault: so a callable can be written with `?`.
impl From<Result<Value, Error>> for Answer {
    ghost use Rattle.std.specs.Prelude.{◌≡◌};
    ghost use Rattle.template_callables.specs.Answers.{answer_of};

    ghost from_gives = { λ made answer. answer ≡ answer_of made };

    fn from(made: Result<Value, Error>) -> Answer {
        match made {
            Ok(value) => Answer::Done(None, value),
            Err(error) => Answer::Fault(error),
        }
    }
}
