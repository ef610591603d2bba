//! The scopes of a running template: what is stored, its frames and their loops.
ghost use Rattle.std.specs.Prelude.{◌≡◌, ◌+◌, ◌<◌, ◌∷◌, ◌++◌, [], false, IsSome, IfSome, IfNone, IfOk, IfErr, OnOk, OnErr, None, Some, length, slice_get, is_some, option_map, if◌then◌else◌};
ghost use Rattle.std.specs.Option.{option_map_or};
ghost use Rattle.template_values_errors.specs.Memory.{NoMemory};
ghost use Rattle.template_values_errors.specs.declared.ErrorKind.TheVariants.{InvalidOperation, OutOfMemory};
ghost use Rattle.template_values_model.specs.Val.{int, loop_record, macro_record};
ghost use Rattle.template_machine_meaning.specs.Closures.{put_in_closure, stands, writes_of};
ghost use Rattle.template_machine_meaning.specs.Macros.{macro_made};
ghost use Rattle.template_machine_meaning.specs.Surroundings.{gave_none, pushed, rounds_here};
ghost use Rattle.template_machine_meaning.specs.World.{Loop, counted_loop, empty_frame, has_room, loop_frame, loop_over};
ghost use Rattle.template_machine_tables.specs.Streams.{stream_of};
ghost use Rattle.template_machine_frames.specs.Frames.{innermost_loop, Becomes};
ghost use Rattle.template_machine_frames.specs.Loops.{GivesNoNumber};
ghost use Rattle.template_machine_state.specs.Changes.{OnlyStored, asked, closed, enclosed, loop_closed, making_of, stored, stored_there, writing};

use crate::leaving::{cut_loop, make_room};
use crate::records::may_hold_loop;
use crate::state::State;
use std::alloc::Global;
use template_machine_frames::{Frame, LoopState, Rounds};
use template_machine_tables::{MacroRecord, Stream};
use template_values_core::Value;
use template_values_errors::{Error, ErrorKind};
use template_values_items::Items;

impl<'env> State<'env> {
    /// From now on the name has the value in the innermost frame, and in the closure that this one writes, if it writes one.
    /// Logarithmic in the locals of that frame and in the names of that closure.
    ///
    /// # Errors
    ///
    /// [`ErrorKind::OutOfMemory`]; the state is then as it was, but where the frame writes a closure the frame alone may have the value.
    #[inline(always)]
    #[tactic(auto, using(crate::proofs::Enclosing::stored_alone, crate::proofs::Enclosing::stored_with, crate::proofs::Room::stored_room))]
    pub fn store(&mut self, name: &'env str, value: Value) -> Result<(), Error>
        requires { 0 < length self.old.frames }
        ensures stored { OnOk result (self.new ≡ stored name.now value self.old) }
        ensures refused { IfErr result NoMemory }
        ensures rest { OnErr result (OnlyStored self.old self.new) }
    {
        match self.ctx.writes() {
            None => self.ctx.store(name, value),
            Some(number) => self.store_enclosed(number, name, value),
        }
    }

    // The same where the frame writes the closure of a number.
    #[cold]
    #[inline(never)]
    #[tactic(auto, using(crate::proofs::Room::stored_on))]
    fn store_enclosed(&mut self, number: u32, name: &'env str, value: Value) -> Result<(), Error>
        requires { 0 < length self.old.frames }
        ensures stored { OnOk result (self.new ≡ put_in_closure (Some number) name.now value (stored_there name.now value self.old)) }
        ensures refused { IfErr result NoMemory }
        ensures rest { OnErr result (OnlyStored self.old self.new) }
    {
        let enclosed = value.copy()?;
        self.ctx.store(name, value)?;
        self.put_in_closure(number, name, enclosed)
    }

    // From now on the name has the value in the closure of a number, if there is one.
    #[tactic(auto, using(crate::proofs::Enclosing::put_nowhere, crate::proofs::Enclosing::put_there))]
    fn put_in_closure(&mut self, number: u32, name: &'env str, value: Value) -> Result<(), Error>
        ensures put { OnOk result (self.new ≡ put_in_closure (Some number) name.now value self.old) }
        ensures refused { IfErr result NoMemory }
        ensures unchanged { OnErr result (self.new ≡ self.old) }
    {
        if !self.ctx.has_closure(number) {
            return Ok(());
        }
        let holds = may_hold_loop(&value);
        self.ctx.put_in_closure(number, name, value)?;
        self.hold_loops_if(holds);
        Ok(())
    }

    /// From now on the closure that the innermost frame writes holds the name: with what it stands for now, unless it holds it
    /// already. A frame that writes no closure writes a new one from now on. As dear as [`State::lookup`].
    ///
    /// # Errors
    ///
    /// [`ErrorKind::OutOfMemory`]; the state is then as it was, but the frame may write a closure.
    #[tactic(auto, using(crate::proofs::Enclosing::holds_already, crate::proofs::Enclosing::holds_now))]
    pub fn enclose(&mut self, alloc: Global, name: &'env str) -> Result<(), Error>
        requires { 0 < length self.old.frames }
        ensures enclosed { OnOk result (self.new ≡ enclosed name.now self.old) }
        ensures refused { IfErr result NoMemory }
        ensures rest { OnErr result (OnlyStored self.old self.new) }
    {
        let number = self.write_closure(alloc)?;
        if self.ctx.is_enclosed(number, name) {
            return Ok(());
        }
        let value = self.lookup(name)?;
        self.put_in_closure(number, name, value)
    }

    // The innermost frame writes a closure from now on, whose number is given.
    #[tactic(auto, using(crate::proofs::Enclosing::writes_on, crate::proofs::Enclosing::writes_anew, crate::proofs::Enclosing::now_written, crate::proofs::Room::written_room))]
    fn write_closure(&mut self, alloc: Global) -> Result<u32, Error>
        requires { 0 < length self.old.frames }
        ensures written { OnOk result (self.new ≡ writing self.old) }
        ensures number { IfOk result (λ number. writes_of self.new.frames ≡ Some number) }
        ensures refused { IfErr result NoMemory }
        ensures unchanged { OnErr result (self.new ≡ self.old) }
    {
        if let Some(number) = self.written_closure() {
            return Ok(number);
        }
        let number = self.ctx.make_closure(alloc)?;
        self.ctx.set_writes(Some(number));
        Ok(number)
    }

    // The closure that the innermost frame writes, if it writes one that there is.
    fn written_closure(&self) -> Option<u32>
        ensures some { IfSome result (λ number. writes_of self.now.frames ≡ Some number) }
        ensures there { is_some result ≡ stands self.now (writes_of self.now.frames) }
    {
        match self.ctx.writes() {
            Some(number) if self.ctx.has_closure(number) => Some(number),
            _ => None,
        }
    }

    /// The number of the closure that the innermost frame writes, if it writes one.
    pub fn closure(&self) -> Option<u32>
        ensures { result ≡ writes_of self.now.frames }
    {
        self.ctx.writes()
    }

    /// Makes a macro whose body stands in the stream that runs, under a number there, and gives its value.
    ///
    /// # Errors
    ///
    /// [`ErrorKind::OutOfMemory`]; the state is then as it was.
    pub fn build_macro(
        &mut self,
        name: &'env str,
        arguments: Items,
        caller: bool,
        number: usize,
        closure: Option<u32>,
    ) -> Result<Value, Error>
        ensures given { IfOk result (λ v. v ≡ macro_record self.old.id (length self.old.macros)) }
        ensures made { OnOk result (self.new ≡ record self.old {
          macros = self.old.macros ++ macro_made self.old (making_of name.now arguments caller number) closure ∷ [];
        }) }
        ensures refused { IfErr result NoMemory }
        ensures unchanged { OnErr result (self.new ≡ self.old) }
    {
        let made = self.macros.len();
        let built = MacroRecord::new(name, arguments, caller, self.here, number, closure);
        self.macros.push(built)?;
        Ok(Value::macro_record(self.id, made))
    }

    /// Opens a frame.
    ///
    /// # Errors
    ///
    /// [`ErrorKind::InvalidOperation`] where the limit leaves no room for it, and [`ErrorKind::OutOfMemory`];
    /// the state is then as it was.
    #[tactic(auto, using(crate::proofs::Room::pushed_bare))]
    pub fn open_frame(&mut self, alloc: Global, limit: usize) -> Result<(), Error>
        ensures { Becomes (pushed limit self.old empty_frame) result self.old self.new }
    {
        self.ctx.push_frame(limit, Frame::bare(alloc))
    }

    /// Opens a frame for a loop over the items, with or without its variable, and counts the loop. It may be called again where it
    /// has a number among the recursive loops of the stream that runs.
    ///
    /// # Errors
    ///
    /// As [`State::open_frame`].
    #[inline(always)]
    pub fn open_loop(
        &mut self,
        alloc: Global,
        limit: usize,
        items: Items,
        variable: bool,
        rounds: Option<usize>,
    ) -> Result<(), Error>
        ensures { let opened = loop_over self.old variable (rounds_here self.old rounds) items in
            Becomes (pushed limit (counted_loop self.old) (loop_frame opened)) result self.old self.new }
    {
        let number = self.opened;
        let (Some(depth), Some(opened)) = (self.ctx.depth_within(), number.checked_add(1)) else {
            return Err(self.why_uncounted(limit));
        };
        let record = record_of(variable, self.id, number);
        let Ok(current) = loop_over(alloc, items, number, depth, record, self.here, rounds) else {
            return Err(self.why_uncounted(limit));
        };
        if !make_room(&mut self.closed, self.ctx.frames(), variable) {
            return Err(self.why_uncounted(limit));
        }
        self.ctx.push_frame(limit, Frame::for_loop(alloc, current))?;
        self.opened = opened;
        Ok(())
    }

    // Why a loop that cannot be counted is refused.
    #[cold]
    #[inline(never)]
    fn why_uncounted(&self, limit: usize) -> Error
        ensures { result ≡ (if has_room limit 1 self.now then OutOfMemory else InvalidOperation) ∷ [] }
    {
        if self.has_room(limit, 1) {
            Error::new(ErrorKind::OutOfMemory)
        } else {
            Error::new(ErrorKind::InvalidOperation)
        }
    }

    /// Closes the innermost frame.
    #[tactic(auto, using(crate::proofs::Room::around_room))]
    pub fn close_frame(&mut self)
        requires { 0 < length self.old.frames }
        ensures { self.new ≡ closed self.old }
    {
        self.ctx.pop_frame();
    }

    /// Closes the innermost frame, which is a loop's. The loop stays known where its value may be held; else what
    /// `changed` was called with for it is forgotten. Takes constant time where no open loop has called it; else linear in the
    /// number of those. There is room for a loop that stays known.
    pub fn close_loop(&mut self)
        requires { IsSome (innermost_loop self.old.frames) }
        ensures { IfSome (innermost_loop self.old.frames) (λ l. self.new ≡ loop_closed l self.old) }
    {
        cut_loop(&mut self.ctx, &mut self.given, &mut self.closed, self.held);
    }

    /// Whether the innermost frame is that of a loop whose rounds were called.
    pub fn has_called_loop(&self) -> bool
        ensures { result ≡ option_map_or (λ (l : Loop). l.called) (innermost_loop self.now.frames) false }
    {
        self.ctx.has_called_loop()
    }

    // From now on the value of a loop that was opened so far may be held.
    pub(crate) fn hold_loops(&mut self)
        ensures { self.new ≡ record self.old { held = self.old.opened } }
    {
        self.held = self.opened;
    }

    /// Whether the innermost frame's loop was given no item.
    pub fn did_not_iterate(&self) -> bool
        requires { IsSome (innermost_loop self.now.frames) }
        ensures { IfSome (innermost_loop self.now.frames) (λ l. result ≡ gave_none l) }
    {
        self.ctx.did_not_iterate()
    }

    /// The next item of the innermost frame's loop, for which the names of that frame are cleared; none is left
    /// behind the last one.
    ///
    /// # Errors
    ///
    /// [`ErrorKind::OutOfMemory`]; the state is then as it was.
    #[inline(always)]
    #[tactic(auto, using(crate::proofs::Room::asked_room))]
    pub fn next_item(&mut self) -> Result<Option<Value>, Error>
        requires { IsSome (innermost_loop self.old.frames) }
        ensures given { IfOk result (λ item. IfSome (innermost_loop self.old.frames) (λ l. item ≡ slice_get l.items l.asked)) }
        ensures asked { IfOk result (λ item. self.new ≡ asked item self.old) }
        ensures refused { IfErr result NoMemory }
        ensures unchanged { OnErr result (self.new ≡ self.old) }
    {
        self.ctx.next_loop_item()
    }

    /// The next item of the innermost frame's loop, for which the names of that frame are cleared, where it is a whole
    /// number; else none, and the state is as it was.
    #[inline(always)]
    #[tactic(auto, using(crate::proofs::Room::numbered_room))]
    pub fn next_number(&mut self) -> Option<i128>
        requires { IsSome (innermost_loop self.old.frames) }
        ensures given { IfSome result (λ n. IfSome (innermost_loop self.old.frames) (λ l. slice_get l.items l.asked ≡ Some (int n))) }
        ensures asked { IfSome result (λ n. self.new ≡ asked (Some (int n)) self.old) }
        ensures none { IfNone result (IfSome (innermost_loop self.old.frames) GivesNoNumber) }
        ensures unchanged { IfNone result (self.new ≡ self.old) }
    {
        self.ctx.next_loop_number()
    }
}

// What the name `loop` has in the loop of a number, where it has its variable.
pub(crate) fn record_of(variable: bool, id: u64, number: usize) -> Option<Value>
    ensures { result ≡ (if variable then Some (loop_record id number) else None) }
{
    if variable {
        Some(Value::loop_record(id, number))
    } else {
        None
    }
}

// A loop of which no item was asked for, and that may be called again where it has a number in the stream.
#[inline(always)]
fn loop_over<'env>(
    alloc: Global,
    items: Items,
    number: usize,
    depth: usize,
    variable: Option<Value>,
    here: Stream<'env>,
    rounds: Option<usize>,
) -> Result<LoopState<'env>, Error>
    ensures made { IfOk result (λ l. l ≡ record {
      items = items;
      asked = 0;
      number = number;
      depth = depth;
      rounds = option_map (λ n. record { stream = stream_of here.entry; number = n }) rounds;
      called = false;
      variable = variable;
    }) }
    ensures refused { IfErr result NoMemory }
{
    let current = LoopState::new(items, number, depth, variable);
    match rounds {
        Some(number) => {
            let rounds = Rounds {
                stream: here,
                number,
            };
            current.recursive(alloc, rounds, false)
        }
        None => Ok(current),
    }
}
