//! What the program brings to the environments of its requests, by its types.
use template_builtins::{Builtin, PythonMethods};
use template_callables::{Extension, NoFormatter, NoJoin};
use template_machine_surroundings::AutoEscapeRule;
use template_values_errors::AutoEscape;

/// The builtins, and a rule of escapes.
pub struct Program;

impl Extension for Program {
    type Callable = Builtin;

    type Method = PythonMethods;

    type Formatter = NoFormatter;

    type Join = NoJoin;

    type Rule = OneEscape;
}

/// The rule that gives each template one escape, whatever its name.
#[derive(Drop)]
pub struct OneEscape {
    pub(crate) escape: AutoEscape,
}

impl AutoEscapeRule for OneEscape {
    ghost answer = { λ rule name. rule.escape };

    fn rule(&self, _name: &str) -> AutoEscape {
        self.escape
    }
}
