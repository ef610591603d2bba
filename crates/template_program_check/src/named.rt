//! What instructions name.
ghost use Rattle.std.specs.Prelude.{◌≡◌, option_map};
ghost use Rattle.std.specs.BTreeSet.{contains_text};
ghost use Rattle.template_compiler_code.specs.View.{code_of};
ghost use Rattle.template_program_check.specs.Names.{is_had, is_own, kind_for, name_in, named_by, named_in};

use std::collections::BTreeSet;
use template_builtins_callables::{filter_named, test_named};
use template_compiler_code::Instruction;
use template_values_errors::ErrorKind;

/// What an instruction names: a filter, a test, or a function that it calls.
#[derive(Clone, Copy)]
pub(crate) enum Named<'a> {
    Filter(&'a str),
    Test(&'a str),
    Function(&'a str),
}

impl<'a> Named<'a> {
    /// The name.
    pub(crate) fn name(self) -> &'a str
        ensures { result.now ≡ name_in (named_in self.entry) }
    {
        match self {
            Named::Filter(name) => name,
            Named::Test(name) => name,
            Named::Function(name) => name,
        }
    }

    /// The kind of the error where nothing has the name.
    pub(crate) fn kind(self) -> ErrorKind
        ensures { result ≡ kind_for (named_in self.entry) }
    {
        match self {
            Named::Filter(_) => ErrorKind::UnknownFilter,
            Named::Test(_) => ErrorKind::UnknownTest,
            Named::Function(_) => ErrorKind::UnknownFunction,
        }
    }

    /// Whether a builtin, the environment or one of the names that templates store has it.
    pub(crate) fn is_had(self, stored: &BTreeSet<String>) -> bool
        ensures { result ≡ is_had (contains_text stored.now) (named_in self.entry) }
    {
        match self {
            Named::Filter(name) => filter_named(name).is_some(),
            Named::Test(name) => test_named(name).is_some(),
            Named::Function(name) => is_own_name(name) || stored.contains(name),
        }
    }
}

/// What an instruction names, if it does.
pub(crate) fn naming<'a>(instruction: &'a Instruction<'_>) -> Option<Named<'a>>
    ensures { option_map named_in result ≡ named_by (code_of instruction.now) }
{
    match instruction {
        Instruction::ApplyFilter(name, _, _) => Some(Named::Filter(name.as_str())),
        Instruction::PerformTest(name, _, _) => Some(Named::Test(name.as_str())),
        Instruction::CallFunction(name, _) => Some(Named::Function(name.as_str())),
        _ => None,
    }
}

// Whether a run has a function of that name by itself.
fn is_own_name(name: &str) -> bool
    ensures { result ≡ is_own name.now }
{
    match name {
        "range" | "dict" | "namespace" | "loop" | "caller" | "super" => true,
        _ => false,
    }
}
