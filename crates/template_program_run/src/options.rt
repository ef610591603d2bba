//! What a request is answered with beside its templates and its context.
ghost use Rattle.std.specs.Prelude.{◌≡◌, None, false};

use template_compiler_syntax::SyntaxConfig;
use template_machine_surroundings::EscapeRule;

/// What a request is answered with beside its templates and its context.
#[derive(Clone, Copy)]
pub struct Options<'a> {
    /// Whether the builtin filters and tests stand in the environment.
    pub builtins: bool,
    /// How the escapes of templates come of their names.
    pub escapes: EscapeRule,
    /// The syntax that templates are read under; the default one, where none is given.
    pub syntax: Option<&'a SyntaxConfig>,
    /// Whether names are told as a JSON list of texts on one line, and not one a line.
    pub names_as_json: bool,
    /// Whether the places of a fault follow its line.
    pub tells_where: bool,
    /// Whether what the context holds is left in memory after the run, as where the process ends then. Giving it up takes as long as
    /// a third of reading it.
    pub leaves_context: bool,
}

impl Options<'_> {
    /// No builtins, escapes by name, the default syntax, names one a line, faults without places, and a context that is given up.
    pub fn new() -> Options<'static>
        ensures builtins { result.builtins ≡ false }
        ensures escapes { result.escapes ≡ EscapeRule.ByName }
        ensures syntax { result.syntax ≡ None }
        ensures names { result.names_as_json ≡ false }
        ensures places { result.tells_where ≡ false }
        ensures given_up { result.leaves_context ≡ false }
    {
        Options {
            builtins: false,
            escapes: EscapeRule::ByName,
            syntax: None,
            names_as_json: false,
            tells_where: false,
            leaves_context: false,
        }
    }
}
