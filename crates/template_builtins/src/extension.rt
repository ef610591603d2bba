//! The builtins alone.
use template_builtins_callables::Builtin;
use template_builtins_methods::PythonMethods;
use template_callables::{Extension, NoFormatter, NoJoin};
use template_machine_surroundings::NoRule;

/// The builtins, and nothing of a user's own.
pub struct Builtins;

impl Extension for Builtins {
    type Callable = Builtin;

    type Method = PythonMethods;

    type Formatter = NoFormatter;

    type Join = NoJoin;

    type Rule = NoRule;
}
