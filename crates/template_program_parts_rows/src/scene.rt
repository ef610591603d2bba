//! A state with records to look into.
ghost use Rattle.std.specs.Prelude.{Some, None, [], true, ◌==◌, if◌then◌else◌, codes};
ghost use Rattle.template_values_core.specs.Shape.{pairs_in};

use crate::constructors::{entry, put};
use std::alloc::Global;
use template_values::{Entry, Error, LoopView, MacroView, Records, Value};

/// The id of the state.
pub(crate) const STATE: u64 = 1;

/// The state has three namespaces: `{7: 70, "k": "<b>"}`, an empty one, and one that holds itself as
/// `self`. Its loops are over 10, 20 and 30, and lie in another loop: 0 to 3 stand at that place, 4
/// before its first item, and 5 is over nothing. Each macro of it is `m`, takes `a` and `b`, and has a caller.
#[derive(Drop)]
pub(crate) struct Scene {
    entries: Vec<Entry>,
    own: Vec<Entry>,
    items: Vec<Value>,
    arguments: Vec<Value>,
}

impl Scene {
    pub(crate) fn new(alloc: Global) -> Result<Scene, Error> {
        let mut scene = Scene {
            entries: Vec::new(alloc),
            own: Vec::new(alloc),
            items: Vec::new(alloc),
            arguments: Vec::new(alloc),
        };
        scene.fill(alloc)?;
        Ok(scene)
    }

    fn fill(&mut self, alloc: Global) -> Result<(), Error> {
        let first = entry(Ok(Value::from_int(7)), Ok(Value::from_int(70)));
        put(&mut self.entries, first)?;
        let second = entry(Value::from_str(alloc, "k"), Value::from_str(alloc, "<b>"));
        put(&mut self.entries, second)?;
        let itself = entry(
            Value::from_str(alloc, "self"),
            Ok(Value::namespace(STATE, 2)),
        );
        put(&mut self.own, itself)?;
        for number in [10, 20, 30] {
            put(&mut self.items, Ok(Value::from_int(number)))?;
        }
        for argument in ["a", "b"] {
            put(&mut self.arguments, Value::from_str(alloc, argument))?;
        }
        Ok(())
    }
}

impl Records for Scene {
    ghost known = { λ s. record {
      namespaces = λ id number. (if id == 1 then (
          if number == 0 then Some (pairs_in s.entries.items)
          else if number == 1 then Some []
          else if number == 2 then Some (pairs_in s.own.items)
          else None) else None);
      loops = λ id number. (if id == 1 then (
          if number == 4 then Some (record { items = s.items.items; place = None; depth = 1 })
          else if number == 5 then Some (record { items = []; place = Some 0; depth = 1 })
          else Some (record { items = s.items.items; place = Some number; depth = 1 })) else None);
      macros = λ id number. (if id == 1 then
          Some (record { name = codes "m"; arguments = s.arguments.items; caller = true }) else None);
    } };

    fn namespace(&self, id: u64, number: usize) -> Option<&[Entry]> {
        if id != STATE {
            return None;
        }
        match number {
            0 => Some(self.entries.as_slice()),
            1 => Some(&[]),
            2 => Some(self.own.as_slice()),
            _ => None,
        }
    }

    fn loop_view(&self, id: u64, number: usize) -> Option<LoopView<'_>> {
        if id != STATE {
            return None;
        }
        Some(match number {
            4 => LoopView {
                items: self.items.as_slice(),
                place: None,
                depth: 1,
            },
            5 => LoopView {
                items: &[],
                place: Some(0),
                depth: 1,
            },
            _ => LoopView {
                items: self.items.as_slice(),
                place: Some(number),
                depth: 1,
            },
        })
    }

    fn macro_view(&self, id: u64, _number: usize) -> Option<MacroView<'_>> {
        if id != STATE {
            return None;
        }
        Some(MacroView {
            name: "m",
            arguments: self.arguments.as_slice(),
            caller: true,
        })
    }
}
