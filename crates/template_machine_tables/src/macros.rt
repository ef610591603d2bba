//! Macros that were made.
ghost use Rattle.std.specs.Prelude.{◌≡◌};
ghost use Rattle.template_values_forms.specs.Views as views;
ghost use Rattle.template_machine_meaning.specs.Records.{macro_seen};
ghost use Rattle.template_machine_tables.specs.Streams.{stream_of};

use crate::Stream;
use std::marker::Model;
use template_values_core::Value;
use template_values_forms::MacroView;
use template_values_items::Items;

/// A macro: its name, the texts of its arguments, and whether it takes a caller; where its body is: a stream, and its number among
/// the macros there; and the number of its closure, if it has one.
#[derive(Drop)]
pub struct MacroRecord<'env> {
    name: &'env str,
    arguments: Items,
    caller: bool,
    stream: Stream<'env>,
    number: usize,
    closure: Option<u32>,
}

impl<'env> Model for MacroRecord<'env> {
    ghost use Rattle.template_machine_meaning.specs.World as worlds;
    ghost use Rattle.template_machine_tables.specs.Streams.{stream_of};
    ghost use Rattle.template_machine_tables.specs.RecordCodes.{macro_code};

    ghost Value = { worlds.Macro };

    ghost coded = { macro_code };

    ghost view = { λ m. record {
      name = m.name.now;
      arguments = m.arguments;
      caller = m.caller;
      stream = stream_of m.stream;
      number = m.number;
      closure = m.closure;
    } };
}

impl<'env> MacroRecord<'env> {
    /// A macro of these parts.
    pub fn new(
        name: &'env str,
        arguments: Items,
        caller: bool,
        stream: Stream<'env>,
        number: usize,
        closure: Option<u32>,
    ) -> MacroRecord<'env>
        ensures { result ≡ record {
          name = name.now;
          arguments = arguments;
          caller = caller;
          stream = stream_of stream.entry;
          number = number;
          closure = closure;
        } }
    {
        MacroRecord {
            name,
            arguments,
            caller,
            stream,
            number,
            closure,
        }
    }

    /// The texts of its arguments.
    pub fn arguments(&self) -> &[Value]
        ensures { result.now ≡ self.now.arguments }
    {
        self.arguments.as_slice()
    }

    /// Whether it takes a caller.
    pub fn takes_caller(&self) -> bool
        ensures { result ≡ self.now.caller }
    {
        self.caller
    }

    /// The stream that has its body.
    pub fn stream(&self) -> Stream<'env>
        ensures { stream_of result ≡ self.now.stream }
    {
        self.stream
    }

    /// Its number among the macros of that stream.
    pub fn number(&self) -> usize
        ensures { result ≡ self.now.number }
    {
        self.number
    }

    /// The number of its closure, if it has one.
    pub fn closure(&self) -> Option<u32>
        ensures { result ≡ self.now.closure }
    {
        self.closure
    }

    /// What a look into the macro shows.
    pub fn view(&self) -> MacroView<'_>
        ensures { views.macro_seen result ≡ macro_seen self.now }
    {
        MacroView {
            name: self.name,
            arguments: self.arguments.as_slice(),
            caller: self.caller,
        }
    }
}
