//! The records of a running template: what is known of them, and what becomes of them.
ghost use Rattle.std.specs.Prelude.{◌≡◌, ℕ, Some, IfOk, IfErr, OnOk, OnErr, if◌then◌else◌, length, map, option_copied, option_map};
ghost use Rattle.template_values_errors.specs.Memory.{NoMemory};
ghost use Rattle.template_values_forms.specs.Views as views;
ghost use Rattle.template_values_forms.specs.Views.{loop_seen};
ghost use Rattle.template_values_model.specs.Val as values;
ghost use Rattle.template_values_core.specs.Shape.{pairs_in};
ghost use Rattle.template_compiler_process.specs.Process as process;
ghost use Rattle.template_callables.specs.Callables.{Asked};
ghost use Rattle.template_values_named.specs.Named.{pairs_named};
ghost use Rattle.template_machine_meaning.specs.Calls.{called_plan, may_hold_any};
ghost use Rattle.template_machine_meaning.specs.Functions.{compares};
ghost use Rattle.template_machine_meaning.specs.Keys.{Around};
ghost use Rattle.template_machine_meaning.specs.World.{World};
ghost use Rattle.template_machine_meaning.specs.Records.{all_loops, known_of, loop_numbered, macro_seen, seen_of};
ghost use Rattle.template_machine_meaning.specs.Plans.{Plan, replies};
ghost use Rattle.template_machine_meaning.specs.Replies as meant;
ghost use Rattle.template_machine_meaning.specs.Namespaces.{made_namespace, may_hold_loop, may_hold_loops, put_attribute, with_attribute};
ghost use Rattle.template_machine_frames.specs.Frames.{Becomes};

use crate::state::State;
use std::alloc::Global;
use template_machine_frames::LoopState;
use template_machine_tables::MacroRecord;
use template_values_core::{Content, Entry, Value};
use template_values_errors::{Error, ErrorKind};
use template_values_forms::{LoopView, MacroView, Records};

impl<'env> State<'env> {
    /// Makes a namespace of the entries, which stand in the order of their keys, each key once.
    ///
    /// # Errors
    ///
    /// [`ErrorKind::OutOfMemory`]; the state is then as it was.
    pub fn make_namespace(&mut self, entries: Vec<Entry>) -> Result<Value, Error>
        ensures given { IfOk result (λ v. v ≡ values.namespace self.old.id (length self.old.namespaces)) }
        ensures made { OnOk result (self.new ≡ made_namespace self.old (pairs_in entries.items)) }
        ensures refused { IfErr result NoMemory }
        ensures unchanged { OnErr result (self.new ≡ self.old) }
    {
        let holds = may_hold_loops(entries.as_slice());
        let number = self.namespaces.make(entries)?;
        self.hold_loops_if(holds);
        Ok(Value::namespace(self.id, number))
    }

    // From now on a value that lasts may hold that of a loop that was opened so far, if it may.
    pub(crate) fn hold_loops_if(&mut self, holds: bool)
        ensures { self.new ≡ record self.old { held = if holds then self.old.opened else self.old.held } }
    {
        if holds {
            self.hold_loops();
        }
    }

    /// From now on the namespace that the holder is has the value under the name. Linear in the number of its entries.
    ///
    /// # Errors
    ///
    /// [`ErrorKind::InvalidOperation`] where the holder is no namespace of this state, and [`ErrorKind::OutOfMemory`]; the
    /// state is then as it was.
    pub fn set_attribute(
        &mut self,
        alloc: Global,
        name: &str,
        value: Value,
        holder: &Value,
    ) -> Result<(), Error>
        ensures { Becomes (with_attribute self.old name.now value holder.now) result self.old self.new }
    {
        match holder.content() {
            Content::Namespace(id, number) => self.put_attribute(alloc, id, number, name, value),
            _ => Err(Error::new(ErrorKind::InvalidOperation)),
        }
    }

    // The same of the namespace of a number in the state of an id.
    fn put_attribute(
        &mut self,
        alloc: Global,
        id: u64,
        number: usize,
        name: &str,
        value: Value,
    ) -> Result<(), Error>
        ensures { let entries = (known_of self.old).namespaces id number in
            Becomes (put_attribute self.old number name.now value entries) result self.old self.new }
    {
        if id != self.id || !self.namespaces.has(number) {
            return Err(Error::new(ErrorKind::InvalidOperation));
        }
        let holds = may_hold_loop(&value);
        self.namespaces.put(alloc, number, name, value)?;
        self.hold_loops_if(holds);
        Ok(())
    }

    /// Whether the arguments are others than those that `changed` was called with last for the loop of a number; they are kept
    /// where they are. Takes as many comparisons of values as there are arguments.
    ///
    /// # Errors
    ///
    /// [`ErrorKind::OutOfMemory`]; the state is then as it was.
    pub fn changed(&mut self, number: usize, args: Vec<Value>) -> Result<bool, Error>
        ensures told { IfOk result (λ is. (a : Around) (pending : ℕ) (go : World → Asked → Plan) →
            called_plan a pending go self.old (compares number args.items)
            ≡ replies (meant.changed self.new (process.value (values.truth is)))) }
        ensures refused { IfErr result NoMemory }
        ensures unchanged { OnErr result (self.new ≡ self.old) }
    {
        if self.given.are_as_before(number, args.as_slice()) {
            return Ok(false);
        }
        self.given.put(number, args)?;
        Ok(true)
    }
}

impl<'env> State<'env> {
    // The loop of that number, if a frame has one, or one was closed whose value may be held.
    pub(crate) fn loop_numbered(&self, number: usize) -> Option<&LoopState<'env>>
        ensures { option_copied result ≡ loop_numbered number (all_loops self.now) }
    {
        match self.ctx.loop_numbered(number) {
            Some(current) => Some(current),
            None => numbered_among(self.closed.as_slice(), number),
        }
    }
}

// Whether a value is a loop's, or may hold one.
pub(crate) fn may_hold_loop(value: &Value) -> bool
    ensures { result ≡ may_hold_loop value.now }
{
    matches!(
        value.content(),
        Content::Loop(_, _)
            | Content::List(_)
            | Content::Tuple(_)
            | Content::Map(_)
            | Content::KeywordMap(_)
            | Content::Module(_, _)
    )
}

// Whether one of the entries has such a value.
fn may_hold_loops(entries: &[Entry]) -> bool
    ensures { result ≡ may_hold_loops (pairs_in entries.now) }
{
    for entry in entries {
        if may_hold_loop(&entry.value) {
            return true;
        }
    }
    false
}

// Whether one of the values under names is such.
pub(crate) fn may_hold_any(temps: &[(String, Value)]) -> bool
    ensures { result ≡ may_hold_any (pairs_named temps.now) }
{
    for temp in temps {
        if may_hold_loop(&temp.1) {
            return true;
        }
    }
    false
}

// The first of the loops that has that number.
fn numbered_among<'a, 'env>(
    closed: &'a [LoopState<'env>],
    number: usize,
) -> Option<&'a LoopState<'env>>
    ensures { option_copied result ≡ loop_numbered number (map Some closed.now) }
{
    for current in closed {
        if current.number() == number {
            return Some(current);
        }
    }
    None
}

// What a look into a loop shows.
fn loop_shown<'a, 'env>(current: Option<&'a LoopState<'env>>) -> Option<LoopView<'a>>
    ensures { option_map loop_seen result ≡ option_map seen_of (option_copied current.entry) }
{
    match current {
        Some(current) => Some(current.view()),
        None => None,
    }
}

// What a look into a macro shows.
fn macro_shown<'a, 'env>(made: Option<&'a MacroRecord<'env>>) -> Option<MacroView<'a>>
    ensures { option_map views.macro_seen result ≡ option_map macro_seen (option_copied made.entry) }
{
    match made {
        Some(made) => Some(made.view()),
        None => None,
    }
}

// A look into a namespace or a macro of this state finds it, and one into a loop of this state where its frame is open, or its
// value may be held.
impl<'env> Records for State<'env> {
    ghost known = { known_of };

    fn namespace(&self, id: u64, number: usize) -> Option<&[Entry]> {
        if id == self.id {
            self.namespaces.entries(number)
        } else {
            None
        }
    }

    fn loop_view(&self, id: u64, number: usize) -> Option<LoopView<'_>> {
        if id == self.id {
            loop_shown(self.loop_numbered(number))
        } else {
            None
        }
    }

    fn macro_view(&self, id: u64, number: usize) -> Option<MacroView<'_>> {
        if id == self.id {
            macro_shown(self.macros.get(number))
        } else {
            None
        }
    }
}
