//! The shapes that the check of a stream works on.

ghost use Rattle.std.specs.Prelude.{◌≡◌, ◌↔◌, IsTrue, suc, nat_le, length, if◌then◌else◌, Some, None, IfOk, IfErr, IfSome, IsNone};
ghost use Rattle.template_values_errors.specs.Memory.{NoMemory};
ghost use Rattle.template_compiler_code_shapes.specs.Shapes.{body_of, taken, run_taken, given, topped, opened, with_frame, escape_closed, capture_closed, frame_closed, innermost_loop, is_over, loop_closed, loop_opened, with_capture, with_escape, floor_of, start};
ghost use Rattle.template_compiler_code_shapes.specs.Outlines.{form_in, shape_of, values_in, has_under, pair_taken};
ghost use Rattle.template_compiler_code_shapes.specs.Streams.{end_of};
ghost use Rattle.template_compiler_code_shapes.specs.declared.StreamKind.{StreamKind};

use crate::StreamKind;
use std::alloc::{AllocError, Global};
use template_compiler_code::LOOP_FLAG_RECURSIVE;
use template_values_errors::{Error, ErrorKind};

/// How much stood open where a loop began.
#[derive(Clone, Copy, Debug, PartialEq, Eq)]
pub struct Floor {
    /// Operands.
    pub operands: usize,
    /// Escapes.
    pub escapes: usize,
    /// Captures.
    pub captures: usize,
}

/// An open frame; a loop's has the place of its `PushLoop`, and that of a recursive loop a floor.
#[derive(Clone, Copy, Debug, PartialEq, Eq)]
pub enum Opened {
    /// A frame of its own.
    With,
    /// A loop's.
    Loop(u32),
    /// A recursive loop's.
    Recursive(u32, Floor),
}

/// An operand that is no value.
#[derive(Clone, Copy, Debug, PartialEq, Eq)]
pub enum Other {
    /// A counted run.
    Counted,
    /// A counted run, and the value that goes into it next.
    Counting,
    /// A closure.
    Closure,
}

/// So many values, and on top of them an operand that is none.
#[derive(Clone, Copy, Debug, PartialEq, Eq)]
pub struct Under {
    /// The values.
    pub below: usize,
    /// What lies on top of them.
    pub other: Other,
}

/// A shape: so many values on top of the operands that are none, the topmost of these last, and what stands open, the
/// innermost frame last.
#[derive(Drop)]
pub struct Outline {
    values: usize,
    others: Vec<Under>,
    frames: Vec<Opened>,
    escapes: usize,
    captures: usize,
    in_macro: bool,
}

/// Whether the frames are the same.
fn are_same_frames(frames: &[Opened], others: &[Opened]) -> bool
    ensures { IsTrue result ↔ (frames.now ≡ others.now) }
{
    frames == others
}

/// Whether the operands are the same.
fn are_same_others(under: &[Under], others: &[Under]) -> bool
    ensures { IsTrue result ↔ (under.now ≡ others.now) }
{
    under == others
}

// One more; an error where it could not be counted.
fn one_more(count: usize) -> Result<usize, Error>
    ensures more { IfOk result (λ more. more ≡ suc count) }
    ensures refused { IfErr result NoMemory }
{
    match count.checked_add(1) {
        Some(more) => Ok(more),
        None => Err(Error::new(ErrorKind::OutOfMemory)),
    }
}

impl Outline {
    /// Where a run begins.
    pub fn start(alloc: Global) -> Outline
        ensures { shape_of result ≡ start }
    {
        Outline {
            values: 0,
            others: Vec::new(alloc),
            frames: Vec::new(alloc),
            escapes: 0,
            captures: 0,
            in_macro: false,
        }
    }

    /// Where the body of a macro of so many arguments begins.
    pub fn body(alloc: Global, arguments: usize) -> Outline
        ensures { shape_of result ≡ body_of arguments }
    {
        Outline {
            values: arguments,
            others: Vec::new(alloc),
            frames: Vec::new(alloc),
            escapes: 0,
            captures: 0,
            in_macro: true,
        }
    }

    /// The same shape once more.
    pub fn copy(&self) -> Result<Outline, AllocError>
        ensures { IfOk result (λ other. shape_of other ≡ shape_of self.now) }
    {
        let others = self.others.clone()?;
        let frames = self.frames.clone()?;
        Ok(Outline {
            values: self.values,
            others,
            frames,
            escapes: self.escapes,
            captures: self.captures,
            in_macro: self.in_macro,
        })
    }

    /// Whether the two are the same shape.
    #[tactic(auto, using(crate::proofs::OutlineLemmas::same_parts, crate::proofs::OutlineLemmas::same_shape))]
    pub fn is_same(&self, other: &Outline) -> bool
        ensures { IsTrue result ↔ (shape_of self.now ≡ shape_of other.now) }
    {
        are_same_frames(self.frames.as_slice(), other.frames.as_slice())
            && are_same_others(self.others.as_slice(), other.others.as_slice())
            && self.values == other.values
            && self.escapes == other.escapes
            && self.captures == other.captures
            && self.in_macro == other.in_macro
    }

    /// What a stream of a kind ends with.
    fn end(alloc: Global, kind: StreamKind) -> Outline
        ensures { shape_of result ≡ end_of kind }
    {
        let values = match kind {
            StreamKind::Template => 0,
            StreamKind::Expression => 1,
        };
        Outline {
            values,
            others: Vec::new(alloc),
            frames: Vec::new(alloc),
            escapes: 0,
            captures: 0,
            in_macro: false,
        }
    }

    /// The kind of a stream that ends with this shape.
    #[tactic(auto, using(crate::proofs::OutlineLemmas::no_end))]
    pub fn end_kind(&self, alloc: Global) -> Option<StreamKind>
        ensures kind { IfSome result (λ kind. shape_of self.now ≡ end_of kind) }
        ensures none { IsNone result → (kind : StreamKind) → shape_of self.now ≡ end_of kind → ⊥ }
    {
        let nothing = Outline::end(alloc, StreamKind::Template);
        if self.is_same(&nothing) {
            return Some(StreamKind::Template);
        }
        let value = Outline::end(alloc, StreamKind::Expression);
        if self.is_same(&value) {
            return Some(StreamKind::Expression);
        }
        None
    }

    /// Whether the body of a macro is over.
    pub fn is_over(&self, alloc: Global) -> bool
        ensures { result ≡ is_over (shape_of self.now) }
    {
        let nothing = Outline::body(alloc, 0);
        self.is_same(&nothing)
    }

    /// The floor of the innermost recursive loop.
    fn floor(&self) -> Floor
        ensures { result ≡ floor_of (shape_of self.now).frames }
    {
        let mut place = self.frames.len();
        while place > 0 {
            place -= 1;
            if let Opened::Recursive(_, floor) = self.frames[place] {
                return floor;
            }
        }
        Floor {
            operands: 0,
            escapes: 0,
            captures: 0,
        }
    }

    /// How many values lie on top.
    pub fn values(&self) -> usize
        ensures { result ≡ values_in self.now }
    {
        self.values
    }

    /// How many operands there are; none where they could not be counted.
    fn count(&self) -> Option<usize>
        ensures { IfSome result (λ count. count ≡ length (shape_of self.now).operands) }
    {
        let mut count = self.values;
        let mut place = self.others.len();
        while place > 0 {
            place -= 1;
            let more = count.checked_add(self.others[place].below)?;
            count = more.checked_add(1)?;
        }
        Some(count)
    }

    /// Whether all operands are there that the innermost recursive loop found.
    fn is_above_floor(&self) -> Result<bool, Error>
        ensures above { IfOk result (λ is. is ≡ nat_le (floor_of (shape_of self.now).frames).operands (length (shape_of self.now).operands)) }
        ensures refused { IfErr result NoMemory }
    {
        let floor = self.floor();
        if floor.operands <= self.values {
            return Ok(true);
        }
        match self.count() {
            Some(count) => Ok(floor.operands <= count),
            None => Err(Error::new(ErrorKind::OutOfMemory)),
        }
    }

    /// Takes so many values, where they lie there above the floor.
    pub fn take(&mut self, count: usize) -> Result<bool, Error>
        ensures taken { IfOk result (λ taken_now. taken count (shape_of self.old) ≡ (if taken_now then Some (shape_of self.new) else None)) }
        ensures refused { IfErr result NoMemory }
    {
        if count > self.values {
            return Ok(false);
        }
        self.values -= count;
        let is_above = self.is_above_floor()?;
        Ok(is_above)
    }

    /// Takes a counted run, where one lies on top above the floor.
    pub fn take_run(&mut self) -> Result<bool, Error>
        ensures taken { IfOk result
            (λ taken_now. run_taken (shape_of self.old) (shape_of self.old).operands
            ≡ (if taken_now then Some (shape_of self.new) else None)) }
        ensures refused { IfErr result NoMemory }
    {
        if self.values != 0 {
            return Ok(false);
        }
        let Some(under) = self.others.pop() else {
            return Ok(false);
        };
        if under.other != Other::Counted {
            return Ok(false);
        }
        self.values = under.below;
        let is_above = self.is_above_floor()?;
        Ok(is_above)
    }

    /// Whether a value lies on top, and such an operand under it.
    pub fn has_under(&self, other: Other) -> bool
        ensures { result ≡ has_under (form_in other) (shape_of self.now).operands }
    {
        if self.values != 1 {
            return false;
        }
        match self.others.last() {
            Some(under) => under.other == other,
            None => false,
        }
    }

    /// Takes a value and such an operand under it, where they lie there above the floor.
    pub fn take_pair(&mut self, other: Other) -> Result<bool, Error>
        ensures taken { IfOk result
            (λ taken_now. pair_taken (form_in other) (shape_of self.old) ≡ (if taken_now then Some (shape_of self.new) else None)) }
        ensures refused { IfErr result NoMemory }
    {
        if self.values != 1 {
            return Ok(false);
        }
        let Some(under) = self.others.pop() else {
            return Ok(false);
        };
        if under.other != other {
            return Ok(false);
        }
        self.values = under.below;
        let is_above = self.is_above_floor()?;
        Ok(is_above)
    }

    /// Puts so many values on top.
    pub fn give(&mut self, count: usize) -> Result<(), Error>
        ensures given { IfOk result (λ _. shape_of self.new ≡ given count (shape_of self.old)) }
        ensures refused { IfErr result NoMemory }
    {
        match self.values.checked_add(count) {
            Some(values) => {
                self.values = values;
                Ok(())
            }
            None => Err(Error::new(ErrorKind::OutOfMemory)),
        }
    }

    /// Puts an operand that is no value on top.
    pub fn top(&mut self, other: Other) -> Result<(), Error>
        ensures topped { IfOk result (λ _. shape_of self.new ≡ topped (form_in other) (shape_of self.old)) }
        ensures refused { IfErr result NoMemory }
    {
        let under = Under {
            below: self.values,
            other,
        };
        match self.others.push(under) {
            Ok(()) => {}
            Err(_refused) => return Err(Error::new(ErrorKind::OutOfMemory)),
        }
        self.values = 0;
        Ok(())
    }

    /// Opens a frame.
    pub fn open(&mut self, frame: Opened) -> Result<(), Error>
        ensures opened { IfOk result (λ _. shape_of self.new ≡ opened frame (shape_of self.old)) }
        ensures refused { IfErr result NoMemory }
    {
        match self.frames.push(frame) {
            Ok(()) => Ok(()),
            Err(_refused) => Err(Error::new(ErrorKind::OutOfMemory)),
        }
    }

    /// Closes the innermost frame, where it is no loop's.
    pub fn close_frame(&mut self) -> bool
        ensures { frame_closed (shape_of self.old) (shape_of self.old).frames ≡ (if result then Some (shape_of self.new) else None) }
    {
        match self.frames.pop() {
            Some(Opened::With) => true,
            _ => false,
        }
    }

    /// Closes the innermost escape, where it was not open before the innermost recursive loop.
    pub fn close_escape(&mut self) -> bool
        ensures { escape_closed (shape_of self.old) ≡ (if result then Some (shape_of self.new) else None) }
    {
        let floor = self.floor();
        if self.escapes <= floor.escapes {
            return false;
        }
        self.escapes -= 1;
        true
    }

    /// Closes the innermost capture, where it was not open before the innermost recursive loop.
    pub fn close_capture(&mut self) -> bool
        ensures { capture_closed (shape_of self.old) ≡ (if result then Some (shape_of self.new) else None) }
    {
        let floor = self.floor();
        if self.captures <= floor.captures {
            return false;
        }
        self.captures -= 1;
        true
    }

    /// The place of the `PushLoop` of the loop whose frame is the innermost one.
    pub fn innermost_loop(&self) -> Option<u32>
        ensures { result ≡ innermost_loop (shape_of self.now).frames }
    {
        match self.frames.last() {
            Some(Opened::Loop(push)) => Some(*push),
            Some(Opened::Recursive(push, _)) => Some(*push),
            _ => None,
        }
    }

    /// Closes the innermost frame, where it is a loop's; a recursive one leaves no escape and no capture
    /// open.
    pub fn close_loop(&mut self) -> bool
        ensures { loop_closed (shape_of self.old) (shape_of self.old).frames ≡ (if result then Some (shape_of self.new) else None) }
    {
        match self.frames.pop() {
            Some(Opened::Loop(_)) => true,
            Some(Opened::Recursive(_, floor)) => {
                self.escapes == floor.escapes && self.captures == floor.captures
            }
            _ => false,
        }
    }

    /// The frame of a loop that is pushed at a place, with its flags.
    pub fn loop_frame(&self, flags: u8, push: u32) -> Result<Opened, Error>
        ensures frame { IfOk result (λ frame. frame ≡ loop_opened flags push (shape_of self.now)) }
        ensures refused { IfErr result NoMemory }
    {
        if flags & LOOP_FLAG_RECURSIVE != 2 {
            return Ok(Opened::Loop(push));
        }
        match self.count() {
            Some(operands) => Ok(Opened::Recursive(
                push,
                Floor {
                    operands,
                    escapes: self.escapes,
                    captures: self.captures,
                },
            )),
            None => Err(Error::new(ErrorKind::OutOfMemory)),
        }
    }

    /// One escape more.
    pub fn open_escape(&mut self) -> Result<(), Error>
        ensures opened { IfOk result (λ _. shape_of self.new ≡ with_escape (shape_of self.old)) }
        ensures refused { IfErr result NoMemory }
    {
        self.escapes = one_more(self.escapes)?;
        Ok(())
    }

    /// One capture more.
    pub fn open_capture(&mut self) -> Result<(), Error>
        ensures opened { IfOk result (λ _. shape_of self.new ≡ with_capture (shape_of self.old)) }
        ensures refused { IfErr result NoMemory }
    {
        self.captures = one_more(self.captures)?;
        Ok(())
    }
}
