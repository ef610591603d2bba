//! The functions that an environment has by itself.
ghost use Rattle.std.specs.Prelude.{◌≡◌, ◌<◌, ◌≤◌, IfNone, IfSome, Some};
ghost use Rattle.template_machine_meaning.specs.OwnFunctions.{own_functions, own_name};
ghost use Rattle.template_machine_tables.specs.Numbers.{number_of};

/// A function that an environment has by itself.
#[derive(Clone, Copy)]
pub enum OwnFunction {
    /// `range`
    Range,
    /// `dict`
    Dict,
    /// `namespace`
    Namespace,
}

/// How many there are: a user's functions have the numbers from here on.
pub const OWN_FUNCTIONS: usize = OwnFunction::ALL.len();

impl OwnFunction {
    /// All of them, in the order of their numbers.
    pub const ALL: [OwnFunction; 3] = [
        OwnFunction::Range,
        OwnFunction::Dict,
        OwnFunction::Namespace,
    ];

    /// The name that it has in templates.
    pub fn name(self) -> &'static str
        ensures { own_name (number_of self) ≡ Some result.now }
    {
        match self {
            OwnFunction::Range => "range",
            OwnFunction::Dict => "dict",
            OwnFunction::Namespace => "namespace",
        }
    }

    /// The number of its values.
    pub fn number(self) -> usize
        ensures { result ≡ number_of self }
    {
        self as usize
    }

    /// The one of a number, if there is one. Takes constant time.
    pub fn numbered(number: usize) -> Option<OwnFunction>
        ensures found { IfSome result (λ function. number_of function ≡ number) }
        ensures within { IfSome result (λ _. number < own_functions) }
        ensures missing { IfNone result (own_functions ≤ number) }
    {
        OwnFunction::ALL.get(number).copied()
    }
}
