//! Runs within a run begin and end.
ghost use Rattle.std.specs.Prelude.{◌≡◌, ◌+◌, ◌^◌, ◌<◌, [], Bool, false, true, IfOk, IfErr, OnOk, OnErr, length, suc, is_some};
ghost use Rattle.template_values_errors.specs.Memory.{NoMemory};
ghost use Rattle.template_machine_meaning.specs.Includes.{include_levels, include_within};
ghost use Rattle.template_machine_meaning.specs.Blocks.{own_frame, super_within, text_within};
ghost use Rattle.template_machine_meaning.specs.Captures.{captured, innermost};
ghost use Rattle.template_machine_meaning.specs.Macros.{macro_levels, macro_within};
ghost use Rattle.template_machine_meaning.specs.Plans.{after_by, caller_of, calls_macro, calls_super, includes, outermost, put_back, restarted, runs_rounds, takes_block};
ghost use Rattle.template_machine_meaning.specs.Rounds.{rounds_within};
ghost use Rattle.template_machine_meaning.specs.Keeps.{KeepsBodies};
ghost use Rattle.template_machine_meaning.specs.Keys.{block_of};
ghost use Rattle.template_machine_meaning.specs.World.{Loop, depth_of, empty_frame};
ghost use Rattle.template_compiler_code.specs.Streams.{heads_of, streams_in};
ghost use Rattle.template_machine_tables.specs.Streams.{home_of, stream_of};
ghost use Rattle.template_machine_frames.specs.Rounds.{rounds_in};
ghost use Rattle.template_machine_state.specs.Changes.{bound_to, caller_named, found_as, macro_at, stream_begun, with_parent};

use crate::caller::Caller;
use crate::capture::Capture;
use crate::leaving::{cut_frames, make_room};
use crate::names::cut_names;
use crate::scopes::record_of;
use crate::state::State;
use crate::written::{begin_if, cut, drop_last, end_last, take_written};
use std::alloc::Global;
use std::mem;
use template_compiler_code::CompiledBlock;
use template_machine_frames::{Frame, LoopState, Rounds};
use template_machine_tables::{BlockStack, Home, Stream};
use template_values_core::Value;
use template_values_errors::{AutoEscape, Error, ErrorKind};
use template_values_items::Items;

// So many levels deeper an included template runs.
const INCLUDE_LEVELS: usize = 10;

// So many levels deeper a macro runs, beside its frame.
const MACRO_LEVELS: usize = 5;

// Under this name a macro finds what called it.
const CALLER: &str = "caller";

impl<'env> State<'env> {
    /// The same without its frames.
    #[tactic(auto, using(crate::proofs::Room::left_room))]
    pub fn without_frames(mut self) -> State<'env>
        ensures { result ≡ record self.entry { frames = []; floor = 0 } }
    {
        let base = self.ctx.base();
        let outer = self.ctx.outer();
        self.ctx.leave(0, base, 0, outer);
        self
    }

    /// What [`State::leave_block`] puts back where a call fails that goes on from here. Copies the escapes that are put back.
    ///
    /// # Errors
    ///
    /// [`ErrorKind::OutOfMemory`]
    pub fn mark(&self, alloc: Global) -> Result<Caller<'env>, Error>
        ensures marked { IfOk result (λ caller. caller ≡ record (caller_of self.now) { blocks = [] }) }
        ensures refused { IfErr result NoMemory }
    {
        Ok(Caller {
            here: self.here,
            block: self.block,
            parent: self.parent,
            blocks: BlockStack::new(alloc),
            loaded: self.loaded.len(),
            frames: self.open_frames(),
            writes: self.ctx.writes(),
            base: self.ctx.base(),
            floor: self.ctx.floor(),
            outer: self.ctx.outer(),
            escape: self.escape,
            saved: self.saved.as_slice().to_vec(alloc)?,
            first: self.first,
            captures: self.captures.len(),
        })
    }

    // How many frames are open: with what else counts as depth they are no more than can be counted.
    fn open_frames(&self) -> usize
        ensures count { result ≡ length self.now.frames }
        ensures fits { result + self.now.outer < 2 ^ 64 }
    {
        self.ctx.depth() - self.ctx.outer()
    }

    // What is put back behind a run within, but for the blocks, the frames, what the innermost of them wrote and their floor, and
    // the captures, which are given. The escapes that are put back go with it.
    fn give_way(
        &mut self,
        alloc: Global,
        blocks: BlockStack<'env>,
        frames: usize,
        writes: Option<u32>,
        floor: usize,
        captures: usize,
    ) -> Caller<'env>
        requires { frames + self.old.outer < 2 ^ 64 }
        ensures kept { result ≡ record (caller_of self.old) {
          blocks = blocks.entry;
          frames = frames;
          writes = writes;
          floor = floor;
          captures = captures;
        } }
        ensures rest { self.new ≡ record self.old { saved = [] } }
    {
        Caller {
            here: self.here,
            block: self.block,
            parent: self.parent,
            blocks,
            loaded: self.loaded.len(),
            frames,
            writes,
            base: self.ctx.base(),
            floor,
            outer: self.ctx.outer(),
            escape: self.escape,
            saved: mem::replace(&mut self.saved, Vec::new(alloc)),
            first: self.first,
            captures,
        }
    }

    // All that a caller has is put back, but for what was loaded, and its blocks, which are given. Of the frames that go a loop
    // stays known where its value may be held; what `changed` was called with for another one is forgotten. Linear in the frames
    // and captures that go.
    #[tactic(auto, using(crate::proofs::Room::left_room))]
    fn put_back(&mut self, caller: Caller<'env>) -> BlockStack<'env>
        ensures put_back { self.new ≡ put_back caller.entry self.old }
        ensures given { result ≡ caller.entry.blocks }
    {
        self.here = caller.here;
        self.block = caller.block;
        self.parent = caller.parent;
        cut_frames(
            &mut self.ctx,
            &mut self.given,
            &mut self.closed,
            self.held,
            caller.frames,
        );
        self.ctx
            .leave(caller.frames, caller.base, caller.floor, caller.outer);
        self.escape = caller.escape;
        self.saved = caller.saved;
        self.first = caller.first;
        cut(&mut self.captures, caller.captures);
        caller.blocks
    }

    /// Begins an included template that stands under a name, in the same frames, under its own escape, with its own blocks, ten
    /// levels deeper, and gives what is put back behind it. Takes a look-up for each of its blocks.
    ///
    /// # Errors
    ///
    /// [`ErrorKind::OutOfMemory`]; the state is then as it was.
    #[tactic(auto, using(crate::proofs::Room::included_room))]
    pub fn enter_include(
        &mut self,
        alloc: Global,
        name: &'env str,
        escape: AutoEscape,
        blocks: &'env [CompiledBlock<'env>],
    ) -> Result<Caller<'env>, Error>
        requires { depth_of self.old + include_levels < 2 ^ 64 }
        ensures within { OnOk result
            (self.new ≡ (include_within self.old (found_as name.now escape (heads_of (streams_in blocks.now)))).begins) }
        ensures kept { IfOk result (λ caller. caller ≡ caller_of self.old) }
        ensures refused { IfErr result NoMemory }
        ensures unchanged { OnErr result (self.new ≡ self.old) }
    {
        let mut stack = BlockStack::new(alloc);
        stack.append(alloc, Home::Standing(name), blocks)?;
        let frames = self.ctx.frames();
        let writes = self.ctx.writes();
        let floor = self.ctx.floor();
        let before = mem::replace(&mut self.blocks, stack);
        let captures = self.captures.len();
        let caller = self.give_way(alloc, before, frames, writes, floor, captures);
        self.here = Stream::own(Home::Standing(name));
        self.parent = None;
        self.ctx.enter(INCLUDE_LEVELS);
        self.escape = escape;
        self.first = escape;
        Ok(caller)
    }

    /// Begins the body that a template has for a block, in a frame of its own, and gives what is put back behind it, but for the
    /// blocks, which stay.
    ///
    /// # Errors
    ///
    /// [`ErrorKind::OutOfMemory`]; the state is then as it was.
    #[tactic(auto, using(crate::proofs::Room::bare_room))]
    pub fn enter_block(
        &mut self,
        alloc: Global,
        name: &'env str,
        home: Home<'env>,
    ) -> Result<Caller<'env>, Error>
        requires { depth_of self.old + 1 < 2 ^ 64 }
        ensures within { OnOk result (self.new ≡ own_frame (block_of (home_of home.entry) name.now) name.now self.old) }
        ensures kept { IfOk result (λ caller. caller ≡ record (caller_of self.old) { blocks = [] }) }
        ensures refused { IfErr result NoMemory }
        ensures unchanged { OnErr result (self.new ≡ self.old) }
    {
        let frames = self.ctx.frames();
        let writes = self.ctx.writes();
        let floor = self.ctx.floor();
        self.ctx.enter_frame(Frame::bare(alloc))?;
        let captures = self.captures.len();
        let blocks = BlockStack::new(alloc);
        let caller = self.give_way(alloc, blocks, frames, writes, floor, captures);
        self.here = Stream::of_block(home, name);
        self.block = Some(name);
        self.parent = None;
        self.first = self.escape;
        Ok(caller)
    }

    /// Begins a stream that was handed in, by its number, in a frame of its own, and gives what is put back behind it, but for the
    /// blocks, which stay. No block runs in it.
    ///
    /// # Errors
    ///
    /// [`ErrorKind::OutOfMemory`]; the state is then as it was.
    #[tactic(auto, using(crate::proofs::Room::bare_room))]
    pub fn enter_stream(&mut self, alloc: Global, number: usize) -> Result<Caller<'env>, Error>
        requires { depth_of self.old + 1 < 2 ^ 64 }
        ensures within { OnOk result (self.new ≡ stream_begun number self.old) }
        ensures kept { IfOk result (λ caller. caller ≡ record (caller_of self.old) { blocks = [] }) }
        ensures refused { IfErr result NoMemory }
        ensures unchanged { OnErr result (self.new ≡ self.old) }
    {
        let frames = self.ctx.frames();
        let writes = self.ctx.writes();
        let floor = self.ctx.floor();
        self.ctx.enter_frame(Frame::bare(alloc))?;
        let captures = self.captures.len();
        let blocks = BlockStack::new(alloc);
        let caller = self.give_way(alloc, blocks, frames, writes, floor, captures);
        self.here = Stream::own(Home::Kept(number));
        self.block = None;
        self.parent = None;
        self.first = self.escape;
        Ok(caller)
    }

    /// Begins the body that a template has for a block, as [`State::enter_block`], in a capture of its own, where so many calls are
    /// pending, which count as levels.
    ///
    /// # Errors
    ///
    /// [`ErrorKind::OutOfMemory`]; the state is then as it was.
    #[tactic(auto, using(crate::proofs::Room::bare_room))]
    pub fn enter_block_text(
        &mut self,
        alloc: Global,
        name: &'env str,
        home: Home<'env>,
        pending: usize,
    ) -> Result<Caller<'env>, Error>
        requires { depth_of self.old + (1 + pending) < 2 ^ 64 }
        ensures within { OnOk result (self.new ≡ (text_within self.old pending name.now (home_of home.entry)).begins) }
        ensures kept { IfOk result (λ caller. caller ≡ record (caller_of self.old) { blocks = [] }) }
        ensures refused { IfErr result NoMemory }
        ensures unchanged { OnErr result (self.new ≡ self.old) }
    {
        let frames = self.ctx.frames();
        let writes = self.ctx.writes();
        let floor = self.ctx.floor();
        let captures = self.captures.len();
        self.captures.reserve(1)?;
        self.ctx.enter_frame(Frame::bare(alloc))?;
        begin_if(alloc, &mut self.captures, true);
        let blocks = BlockStack::new(alloc);
        let caller = self.give_way(alloc, blocks, frames, writes, floor, captures);
        self.here = Stream::of_block(home, name);
        self.block = Some(name);
        self.parent = None;
        self.first = self.escape;
        self.ctx.add_levels(pending);
        Ok(caller)
    }

    /// Begins the body that a template has for a block behind the one at a place, in a frame of its own, where it is called by
    /// name in a capture of its own, and gives what is put back behind it, but for the blocks, which stay.
    ///
    /// # Errors
    ///
    /// [`ErrorKind::OutOfMemory`]; the state is then as it was.
    #[tactic(auto, using(crate::proofs::Room::bare_room))]
    pub fn enter_super(
        &mut self,
        alloc: Global,
        name: &'env str,
        place: usize,
        home: Home<'env>,
        named: bool,
    ) -> Result<Caller<'env>, Error>
        requires depth { depth_of self.old + 1 < 2 ^ 64 }
        requires place { place + 1 < 2 ^ 64 }
        ensures within { OnOk result (self.new ≡ (super_within self.old named name.now place (home_of home.entry)).begins) }
        ensures kept { IfOk result (λ caller. caller ≡ record (caller_of self.old) { blocks = [] }) }
        ensures refused { IfErr result NoMemory }
        ensures unchanged { OnErr result (self.new ≡ self.old) }
    {
        let frames = self.ctx.frames();
        let writes = self.ctx.writes();
        let floor = self.ctx.floor();
        let captures = self.captures.len();
        self.captures.reserve(1)?;
        self.ctx.enter_frame(Frame::bare(alloc))?;
        begin_if(alloc, &mut self.captures, named);
        let blocks = BlockStack::new(alloc);
        let caller = self.give_way(alloc, blocks, frames, writes, floor, captures);
        self.here = Stream::of_block(home, name);
        self.block = Some(name);
        self.parent = None;
        self.first = self.escape;
        self.blocks.set_place(name, place + 1);
        Ok(caller)
    }

    /// Begins the body of a macro that stands in a stream, in a frame of its own over a closure, in which its caller has its name, if
    /// it takes one, and in a capture of its own; so many calls are pending, which count as levels. Gives what is put back behind it.
    /// Of the frames that are open none is seen. Takes a copy of what stands under the names of blocks.
    ///
    /// # Errors
    ///
    /// [`ErrorKind::OutOfMemory`]; the state is then as it was.
    #[tactic(auto, using(crate::proofs::Room::macro_room))]
    pub fn enter_macro(
        &mut self,
        alloc: Global,
        stream: Stream<'env>,
        closure: Option<u32>,
        caller: Option<Value>,
        pending: usize,
    ) -> Result<Caller<'env>, Error>
        requires { depth_of self.old + (macro_levels + pending) < 2 ^ 64 }
        ensures within { OnOk result
            (self.new ≡ (macro_within self.old pending (macro_at (stream_of stream.entry) closure) (bound_to caller)).begins) }
        ensures kept { IfOk result (λ caller. caller ≡ caller_of self.old) }
        ensures refused { IfErr result NoMemory }
        ensures unchanged { OnErr result (self.new ≡ self.old) }
    {
        let frames = self.ctx.frames();
        let writes = self.ctx.writes();
        let floor = self.ctx.floor();
        let captures = self.captures.len();
        let frame = macro_frame(alloc, closure, caller)?;
        let blocks = self.blocks.copy()?;
        self.captures.reserve(1)?;
        self.ctx.enter_frame(frame)?;
        begin_if(alloc, &mut self.captures, true);
        let before = self.give_way(alloc, blocks, frames, writes, floor, captures);
        self.here = stream;
        self.block = None;
        self.parent = None;
        self.first = self.escape;
        self.ctx.set_base(frames);
        self.ctx.add_levels(MACRO_LEVELS);
        self.ctx.add_levels(pending);
        Ok(before)
    }

    /// Begins the rounds of a loop that is called again over the items, in a frame of their own, with its variable or without, and
    /// where it is called by name in a capture of their own; and counts them as a loop. Gives what is put back behind them, but for
    /// the blocks, which stay.
    ///
    /// # Errors
    ///
    /// [`ErrorKind::OutOfMemory`], also where loops can't be counted any more; the state is then as it was.
    #[tactic(auto, using(crate::proofs::Room::grown_room))]
    pub fn enter_rounds(
        &mut self,
        alloc: Global,
        rounds: Rounds<'env>,
        variable: bool,
        items: Items,
        named: bool,
    ) -> Result<Caller<'env>, Error>
        requires { depth_of self.old + 1 < 2 ^ 64 }
        ensures within { OnOk result ((l : Loop) → is_some l.variable ≡ variable →
            self.new ≡ (rounds_within self.old named l (rounds_in rounds.entry) items).begins) }
        ensures kept { IfOk result (λ caller. caller ≡ record (caller_of self.old) { blocks = [] }) }
        ensures refused { IfErr result NoMemory }
        ensures unchanged { OnErr result (self.new ≡ self.old) }
    {
        let number = self.opened;
        let (Some(depth), Some(counted)) = (self.ctx.depth_within(), number.checked_add(1)) else {
            return Err(Error::new(ErrorKind::OutOfMemory));
        };
        let record = record_of(variable, self.id, number);
        let current = LoopState::new(items, number, depth, record).recursive(alloc, rounds, true)?;
        let frames = self.ctx.frames();
        if !make_room(&mut self.closed, frames, variable) {
            return Err(Error::new(ErrorKind::OutOfMemory));
        }
        let writes = self.ctx.writes();
        let floor = self.ctx.floor();
        let captures = self.captures.len();
        self.captures.reserve(1)?;
        self.ctx.enter_frame(Frame::for_loop(alloc, current))?;
        begin_if(alloc, &mut self.captures, named);
        let blocks = BlockStack::new(alloc);
        let caller = self.give_way(alloc, blocks, frames, writes, floor, captures);
        self.here = rounds.stream;
        self.opened = counted;
        Ok(caller)
    }

    /// Ends an included template, whatever its end: the innermost of the caller's frames and captures stay as it left them, all
    /// else of the caller's is put back. Linear in the frames, captures and names that go.
    #[tactic(auto, using(crate::proofs::Room::written_room))]
    pub fn leave_include(&mut self, caller: Caller<'env>)
        ensures { self.new ≡ after_by includes caller.entry self.old }
    {
        let writes = caller.writes;
        self.leave_macro(caller);
        self.ctx.set_writes(writes);
    }

    /// Ends the body of a macro, whatever its end: all that was the caller's is put back. Linear in the frames, captures and names
    /// that go.
    pub fn leave_macro(&mut self, caller: Caller<'env>)
        ensures { self.new ≡ after_by calls_macro caller.entry self.old }
    {
        cut_names(&mut self.loaded, caller.loaded);
        let before = self.put_back(caller);
        let _after = mem::replace(&mut self.blocks, before);
    }

    /// Ends the body of a macro, as [`State::leave_macro`], and gives what was written in its capture.
    ///
    /// # Errors
    ///
    /// [`ErrorKind::OutOfMemory`]; the body is then ended all the same.
    pub fn leave_macro_text(&mut self, alloc: Global, caller: Caller<'env>) -> Result<Value, Error>
        ensures given { IfOk result (λ v.
            v ≡ captured caller.entry.escape (innermost (outermost (suc caller.entry.captures) self.old.captures))) }
        ensures ended { self.new ≡ after_by calls_macro caller.entry self.old }
        ensures refused { IfErr result NoMemory }
    {
        let written = take_written(alloc, &mut self.captures, caller.captures, caller.escape);
        self.leave_macro(caller);
        written
    }

    /// Ends the body of a block that ran for its text, as [`State::leave_block`], and gives what was written in its capture.
    ///
    /// # Errors
    ///
    /// [`ErrorKind::OutOfMemory`]; the body is then ended all the same.
    pub fn leave_block_text(&mut self, alloc: Global, caller: Caller<'env>) -> Result<Value, Error>
        ensures given { IfOk result (λ v.
            v ≡ captured caller.entry.escape (innermost (outermost (suc caller.entry.captures) self.old.captures))) }
        ensures ended { self.new ≡ after_by takes_block caller.entry self.old }
        ensures refused { IfErr result NoMemory }
    {
        let written = take_written(alloc, &mut self.captures, caller.captures, caller.escape);
        self.leave_block(caller);
        written
    }

    /// Ends rounds that were called in the place of a print, whatever their end: what they wrote, and what the run extends, stay.
    pub fn leave_rounds(&mut self, alloc: Global, caller: Caller<'env>)
        ensures { self.new ≡ after_by (runs_rounds false) caller.entry self.old }
    {
        let captures = mem::replace(&mut self.captures, Vec::new(alloc));
        let parent = self.parent;
        let _blocks = self.put_back(caller);
        self.captures = captures;
        self.parent = parent;
    }

    /// Ends rounds that were called by name, as [`State::leave_rounds`]; the innermost capture ends, and what it ends with is given.
    ///
    /// # Errors
    ///
    /// [`ErrorKind::OutOfMemory`]; the rounds are then ended all the same.
    pub fn leave_rounds_text(&mut self, alloc: Global, caller: Caller<'env>) -> Result<Value, Error>
        ensures given { IfOk result (λ v. v ≡ captured caller.entry.escape (innermost self.old.captures)) }
        ensures ended { self.new ≡ after_by (runs_rounds true) caller.entry self.old }
        ensures refused { IfErr result NoMemory }
    {
        let written = end_last(&mut self.captures, caller.escape);
        self.leave_rounds(alloc, caller);
        written
    }

    /// Ends rounds that were called by name, as [`State::leave_rounds_text`], where nobody wants what the innermost capture ends with.
    pub fn leave_named_rounds(&mut self, alloc: Global, caller: Caller<'env>)
        ensures { self.new ≡ after_by (runs_rounds true) caller.entry self.old }
    {
        drop_last(&mut self.captures);
        self.leave_rounds(alloc, caller);
    }

    /// Ends the body of a block, whatever its end, as [`State::leave_include`] ends an included template; but the blocks stay, and
    /// the templates that were loaded.
    pub fn leave_block(&mut self, caller: Caller<'env>)
        ensures { self.new ≡ put_back caller.entry self.old }
    {
        let _blocks = self.put_back(caller);
    }

    /// Ends the body behind the one at a place, as [`State::leave_block`]; the block's calls run that one again.
    pub fn leave_super(&mut self, caller: Caller<'env>, name: &str, place: usize)
        ensures { (named : Bool) → self.new ≡ after_by (calls_super named name.now place) caller.entry self.old }
    {
        self.blocks.set_place(name, place);
        let _blocks = self.put_back(caller);
    }

    /// Ends the body behind the one at a place, as [`State::leave_super`], and gives what was written in the capture in which it
    /// was called by name.
    ///
    /// # Errors
    ///
    /// [`ErrorKind::OutOfMemory`]; the body is then ended all the same.
    pub fn leave_named_super(
        &mut self,
        alloc: Global,
        caller: Caller<'env>,
        name: &str,
        place: usize,
    ) -> Result<Value, Error>
        ensures given { IfOk result (λ v.
            v ≡ captured caller.entry.escape (innermost (outermost (suc caller.entry.captures) self.old.captures))) }
        ensures ended { self.new ≡ after_by (calls_super true name.now place) caller.entry self.old }
        ensures refused { IfErr result NoMemory }
    {
        let written = take_written(alloc, &mut self.captures, caller.captures, caller.escape);
        self.leave_super(caller, name, place);
        written
    }

    /// A stream came to its end that extends the template of a name, which runs in its place: in the same frames, under the
    /// escape in force, and what is written is no longer dropped.
    pub fn restart(&mut self, name: &'env str)
        ensures { self.new ≡ restarted name.now self.old }
    {
        self.here = Stream::own(Home::Standing(name));
        self.parent = None;
        // The innermost capture is the one that dropped it.
        drop_last(&mut self.captures);
    }

    /// From now on the run extends the template of a name: its blocks go behind those that are there, it counts as loaded, and
    /// what is written is dropped. Takes a look-up for each of its blocks.
    ///
    /// # Errors
    ///
    /// [`ErrorKind::OutOfMemory`]; some of its blocks may then be there, all else is as it was.
    pub fn load_blocks(
        &mut self,
        alloc: Global,
        name: &'env str,
        blocks: &'env [CompiledBlock<'env>],
    ) -> Result<(), Error>
        ensures loaded { OnOk result (self.new ≡ with_parent name.now (heads_of (streams_in blocks.now)) self.old) }
        ensures refused { IfErr result NoMemory }
        ensures rest { OnErr result (self.new ≡ record self.old { blocks = self.new.blocks }) }
        ensures kept { OnErr result (KeepsBodies self.old.blocks self.new.blocks) }
    {
        self.loaded.reserve(1)?;
        self.captures.reserve(1)?;
        self.blocks.append(alloc, Home::Standing(name), blocks)?;
        self.loaded.push_reserved(name);
        self.captures.push_reserved(Capture::new(alloc, false));
        self.parent = Some(name);
        Ok(())
    }
}

// The frame of a macro over a closure, with its caller, if it takes one.
fn macro_frame<'env>(
    alloc: Global,
    closure: Option<u32>,
    caller: Option<Value>,
) -> Result<Frame<'env>, Error>
    ensures made { IfOk result (λ frame. frame ≡ record empty_frame { locals = caller_named caller; reads = closure }) }
    ensures refused { IfErr result NoMemory }
{
    let mut frame = Frame::for_macro(alloc, closure);
    match caller {
        Some(value) => {
            frame.store(CALLER, value)?;
            Ok(frame)
        }
        None => Ok(frame),
    }
}
