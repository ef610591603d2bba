//! What is known of the records of a running state.
ghost use Rattle.std.specs.Prelude.{◌≡◌, option_map};
ghost use Rattle.template_values_core.specs.Shape.{pairs_in};
ghost use Rattle.template_values_forms.specs.Known.{Known, nothing_known};

use template_values_core::{Entry, Value};

/// A loop as it is looked into.
#[derive(Clone, Copy)]
pub struct LoopView<'a> {
    /// What the loop goes over.
    pub items: &'a [Value],
    /// The index of the item that it is at, from 0; none before the first item.
    pub place: Option<usize>,
    /// How many recursive loops enclose it.
    pub depth: usize,
}

/// A macro as it is looked into.
#[derive(Clone, Copy)]
pub struct MacroView<'a> {
    /// The macro's name.
    pub name: &'a str,
    /// The names of its arguments.
    pub arguments: &'a [Value],
    /// Whether it takes a caller.
    pub caller: bool,
}

/// What is known of namespaces, loops and macros, by their state's id and their number in it. A
/// foreign record is not known.
pub trait Records {
    ghost use Rattle.template_values_forms.specs.Views.{loop_seen, macro_seen};

    ghost known: { Self → Known };

    /// The entries of a namespace, in the order of their keys.
    fn namespace(&self, id: u64, number: usize) -> Option<&[Entry]>
        ensures { option_map (λ es. pairs_in es.now) result ≡ (known self.now).namespaces id number };

    /// What a loop is at.
    fn loop_view(&self, id: u64, number: usize) -> Option<LoopView<'_>>
        ensures { option_map loop_seen result ≡ (known self.now).loops id number };

    /// What a macro is.
    fn macro_view(&self, id: u64, number: usize) -> Option<MacroView<'_>>
        ensures { option_map macro_seen result ≡ (known self.now).macros id number };
}

/// Knows no record.
#[derive(Clone, Copy, Debug, Default)]
pub struct NoRecords;

impl Records for NoRecords {
    ghost known = { λ _. nothing_known };

    fn namespace(&self, _id: u64, _number: usize) -> Option<&[Entry]> {
        None
    }

    fn loop_view(&self, _id: u64, _number: usize) -> Option<LoopView<'_>> {
        None
    }

    fn macro_view(&self, _id: u64, _number: usize) -> Option<MacroView<'_>> {
        None
    }
}
