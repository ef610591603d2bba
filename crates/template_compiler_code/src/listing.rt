//! The instructions of a template.

ghost use Rattle.std.specs.Prelude.{◌≡◌, ◌^◌, ◌<◌, ◌≤◌, ◌+◌, ◌++◌, ◌∷◌, [], ◌↔◌, ◌⊎◌, All, IsTrue, not, IfOk, IfErr, OnOk, OnErr, IsErrAnd, filter, length, ltb, map, slice_get, option_map, take};
ghost use Rattle.std.proofs.Math.ListN.{set};
ghost use Rattle.template_values_errors.specs.Memory.{NoMemory};
ghost use Rattle.template_compiler_code.specs.Marked.{marks_in};
ghost use Rattle.template_compiler_code.specs.View.{code_of};
ghost use Rattle.template_compiler_code.specs.Counting.{AreNumbered, count_of, counts_before, place_from, places_from};
ghost use Rattle.template_compiler_code.specs.Told.{told_span};

use crate::instruction::{Instruction, owned};
use crate::numbered::{Part, count_before, is_counted, place_at, places_of};
use crate::{Mark, Marks};
use std::alloc::{AllocError, Global};
use std::borrow::CowStr;
use template_compiler_tree::Span;
use template_values_errors::{Error, ErrorKind, Place};

// How many bytes of a source give an instruction, and how many one that is marked, where it has little text.
const BYTES_AN_INSTRUCTION: usize = 4;

const BYTES_A_MARK: usize = 8;

/// The instructions of a template, with its name and the source that they were compiled from, and where they come from.
/// There are fewer than 2^32.
#[derive(Drop)]
pub struct Instructions<'source> {
    name: CowStr<'source>,
    source: CowStr<'source>,
    code: Vec<Instruction<'source>>,
    marks: Marks,
    // Where macros are made, and where loops are opened that may be called again, if that was listed.
    macros: Vec<u32>,
    rounds: Vec<u32>,
    is_numbered: bool,
    ghost numbered: { IsTrue is_numbered → AreNumbered macros.items rounds.items (map code_of code.items) },
    ghost small: { length code.items < 2 ^ 32 },
    ghost placed: { All (λ m. m.start < length code.items) (marks_in marks) },
}

impl<'source> Instructions<'source> {
    ghost use Rattle.template_compiler_code.specs.Listing.{name_in, source_in, code_in, line_in, places_in, span_in, IsFull, TakesNoMore, IsSameTemplate, line_mark, span_mark};

    /// No instructions yet, with room for those that a source of this length may have, where it can be had.
    pub fn new(alloc: Global, name: &'source str, source: &'source str) -> Instructions<'source>
        ensures name { name_in result ≡ name.now }
        ensures source { source_in result ≡ source.now }
        ensures empty { code_in result ≡ [] }
        ensures places { places_in result ≡ [] }
    {
        Instructions {
            name: CowStr::Borrowed(name),
            source: CowStr::Borrowed(source),
            code: with_room(alloc, source.len() / BYTES_AN_INSTRUCTION),
            marks: Marks::with_room(alloc, source.len() / BYTES_A_MARK),
            macros: Vec::new(alloc),
            rounds: Vec::new(alloc),
            is_numbered: false,
        }
    }

    /// Gives back the room behind the last instruction, where it can be.
    pub fn shrink_to_fit(&mut self)
        ensures code { code_in self.new ≡ code_in self.old }
        ensures same { IsSameTemplate self.old self.new }
        ensures places { places_in self.new ≡ places_in self.old }
    {
        self.code.shrink_to_fit();
        self.marks.shrink_to_fit();
    }

    /// Lists where macros are made and where loops are opened that may be called again, where memory can be had for it: these are
    /// found by their numbers without a pass over the code then, until it is changed. Takes time linear in the instructions.
    pub fn number_parts(&mut self)
        ensures code { code_in self.new ≡ code_in self.old }
        ensures same { IsSameTemplate self.old self.new }
        ensures places { places_in self.new ≡ places_in self.old }
    {
        let alloc = *self.code.allocator();
        let macros = places_of(alloc, Part::Macro, self.code.as_slice());
        let rounds = places_of(alloc, Part::Rounds, self.code.as_slice());
        if let (Ok(macros), Ok(rounds)) = (macros, rounds) {
            self.macros = macros;
            self.rounds = rounds;
            self.is_numbered = true;
        }
    }

    /// How many parts of a kind stand before a place. Takes a search by halving where the parts are numbered, and else time linear
    /// in the place.
    pub fn parts_before(&self, part: Part, place: u32) -> usize
        ensures { result ≡ count_of part (counts_before (code_in self.now) place) }
    {
        if self.is_numbered {
            return count_before(self.places(part), place);
        }
        counted(part, self.code.as_slice(), place as usize)
    }

    /// Where the part of a kind stands that has this number among them. Takes constant time where the parts are numbered, and else
    /// time linear in the instructions.
    pub fn part_place(&self, part: Part, number: usize) -> Option<u32>
        ensures { result ≡ place_from part 0 (code_in self.now) number }
    {
        if self.is_numbered {
            return place_at(self.places(part), number);
        }
        found(part, self.code.as_slice(), number)
    }

    // The places that are listed of a kind.
    fn places(&self, part: Part) -> &[u32]
        ensures { IsTrue self.now.is_numbered → result.now ≡ places_from part 0 (code_in self.now) }
    {
        match part {
            Part::Macro => self.macros.as_slice(),
            Part::Rounds => self.rounds.as_slice(),
        }
    }

    /// The same with texts of their own, which are copied where they were borrowed. Takes time and memory linear in the
    /// instructions and in those texts.
    ///
    /// # Errors
    ///
    /// [`ErrorKind::OutOfMemory`].
    pub fn into_owned<'owned>(self, alloc: Global) -> Result<Instructions<'owned>, Error>
        ensures name { IfOk result (λ i. name_in i ≡ name_in self.entry) }
        ensures source { IfOk result (λ i. source_in i ≡ source_in self.entry) }
        ensures code { IfOk result (λ i. code_in i ≡ code_in self.entry) }
        ensures places { IfOk result (λ i. places_in i ≡ places_in self.entry) }
        ensures refused { IfErr result NoMemory }
    {
        let Instructions {
            name,
            source,
            code,
            marks,
            macros,
            rounds,
            is_numbered,
        } = self;
        Ok(Instructions {
            name: owned(alloc, name)?,
            source: owned(alloc, source)?,
            code: owned_code(alloc, code)?,
            marks,
            macros,
            rounds,
            is_numbered,
        })
    }

    /// The name of the template.
    pub fn name(&self) -> &str
        ensures { result.now ≡ name_in self.now }
    {
        self.name.as_str()
    }

    /// The source of the template.
    pub fn source(&self) -> &str
        ensures { result.now ≡ source_in self.now }
    {
        self.source.as_str()
    }

    /// How many instructions there are.
    pub fn len(&self) -> usize
        ensures len { result ≡ length (code_in self.now) }
        ensures bound { result < 2 ^ 32 }
    {
        self.code.len()
    }

    /// Whether there is no instruction.
    pub fn is_empty(&self) -> bool
        ensures { IsTrue result ↔ (code_in self.now ≡ []) }
    {
        self.code.is_empty()
    }

    /// The instruction at a place, the first one at 0.
    pub fn get(&self, index: u32) -> Option<&Instruction<'source>>
        ensures { option_map (λ i. code_of i.now) result ≡ slice_get (code_in self.now) index }
    {
        self.code.get(index as usize)
    }

    /// The line of the last instruction at a place or before it that was added with a line or a span. A place behind
    /// the last instruction counts as the last. Takes a search by halving.
    pub fn get_line(&self, index: u32) -> Option<u16>
        ensures { result ≡ line_in self.now index }
    {
        self.marks.line(index)
    }

    /// The span of that instruction; none where it was added with a line alone, or with the default span. Takes a search
    /// by halving.
    pub fn get_span(&self, index: u32) -> Option<Span>
        ensures { result ≡ span_in self.now index }
    {
        self.marks.span(index)
    }

    /// The same error, with one more place: where in the source the instruction at `index` comes from. For
    /// [`Error::places`]; contracts do not see it. Takes a search by halving and a copy of the name.
    #[cold]
    #[inline(never)]
    pub fn placed(&self, error: Error, index: u32) -> Error
        ensures { result ≡ error }
    {
        let alloc = *self.code.allocator();
        let Ok(name) = String::from_str(alloc, self.name()) else {
            return error;
        };
        let place = match self.get_span(index) {
            Some(span) => Place {
                name,
                line: span.start_line,
                column: span.start_col,
                start: span.start_offset,
                end: span.end_offset,
            },
            None => Place {
                name,
                line: self.get_line(index).unwrap_or(0),
                column: 0,
                start: 0,
                end: 0,
            },
        };
        error.placed(alloc, place)
    }

    /// Puts an instruction behind the others, and answers its place.
    ///
    /// # Errors
    ///
    /// [`ErrorKind::TooLarge`] where it would be the 2^32nd, and [`ErrorKind::OutOfMemory`]; then the
    /// instructions stay as they were.
    #[inline(always)]
    pub fn add(&mut self, instruction: Instruction<'source>) -> Result<u32, Error>
        ensures place { IfOk result (λ place. place ≡ length (code_in self.old)) }
        ensures added { OnOk result (code_in self.new ≡ code_in self.old ++ code_of instruction.entry ∷ []) }
        ensures same { IsSameTemplate self.old self.new }
        ensures places { places_in self.new ≡ places_in self.old }
        ensures refused { IfErr result (TakesNoMore (code_in self.old)) }
        ensures full { IsFull (code_in self.old) → IsErrAnd result (λ kinds. kinds ≡ ErrorKind.TooLarge ∷ []) }
        ensures unchanged { OnErr result (code_in self.new ≡ code_in self.old) }
    {
        match self.push(instruction) {
            Ok(place) => Ok(place),
            Err(kind) => Err(Error::new(kind)),
        }
    }

    /// The same, where the kind alone is told of what refuses it.
    ///
    /// # Errors
    ///
    /// As [`Instructions::add`].
    #[inline(always)]
    pub fn push(&mut self, instruction: Instruction<'source>) -> Result<u32, ErrorKind>
        ensures place { IfOk result (λ place. place ≡ length (code_in self.old)) }
        ensures added { OnOk result (code_in self.new ≡ code_in self.old ++ code_of instruction.entry ∷ []) }
        ensures same { IsSameTemplate self.old self.new }
        ensures places { places_in self.new ≡ places_in self.old }
        ensures refused { IfErr result (λ kind. TakesNoMore (code_in self.old) (kind ∷ [])) }
        ensures full { IsFull (code_in self.old) → IsErrAnd result (λ kind. kind ≡ ErrorKind.TooLarge) }
        ensures unchanged { OnErr result (code_in self.new ≡ code_in self.old) }
    {
        self.is_numbered = false;
        put_last(&mut self.code, instruction)
    }

    /// The same for an instruction that comes from a line, the first of the source at 1.
    ///
    /// # Errors
    ///
    /// As [`Instructions::add`].
    pub fn add_with_line(
        &mut self,
        instruction: Instruction<'source>,
        line: u16,
    ) -> Result<u32, Error>
        ensures place { IfOk result (λ place. place ≡ length (code_in self.old)) }
        ensures added { OnOk result (code_in self.new ≡ code_in self.old ++ code_of instruction.entry ∷ []) }
        ensures marked { OnOk result (places_in self.new ≡ places_in self.old ++ line_mark (length (code_in self.old)) line ∷ []) }
        ensures same { IsSameTemplate self.old self.new }
        ensures refused { IfErr result (TakesNoMore (code_in self.old)) }
        ensures full { IsFull (code_in self.old) → IsErrAnd result (λ kinds. kinds ≡ ErrorKind.TooLarge ∷ []) }
        ensures unchanged { OnErr result (code_in self.new ≡ code_in self.old) }
        ensures unmarked { OnErr result (places_in self.new ≡ places_in self.old) }
    {
        let start = self.add(instruction)?;
        match self.marks.push(Mark {
            start,
            line,
            span: None,
        }) {
            Ok(()) => Ok(start),
            Err(_refused) => {
                self.is_numbered = false;
                Err(Error::new(taken_back(&mut self.code, start)))
            }
        }
    }

    /// The same for an instruction that comes from a span, with the line that this starts in. The default span tells
    /// line 0 and no span.
    ///
    /// # Errors
    ///
    /// As [`Instructions::add`].
    #[inline(always)]
    pub fn add_with_span(
        &mut self,
        instruction: Instruction<'source>,
        span: Span,
    ) -> Result<u32, Error>
        ensures place { IfOk result (λ place. place ≡ length (code_in self.old)) }
        ensures added { OnOk result (code_in self.new ≡ code_in self.old ++ code_of instruction.entry ∷ []) }
        ensures marked { OnOk result (places_in self.new ≡ places_in self.old ++ span_mark (length (code_in self.old)) span ∷ []) }
        ensures same { IsSameTemplate self.old self.new }
        ensures refused { IfErr result (TakesNoMore (code_in self.old)) }
        ensures full { IsFull (code_in self.old) → IsErrAnd result (λ kinds. kinds ≡ ErrorKind.TooLarge ∷ []) }
        ensures unchanged { OnErr result (code_in self.new ≡ code_in self.old) }
        ensures unmarked { OnErr result (places_in self.new ≡ places_in self.old) }
    {
        match self.push_with_span(instruction, span) {
            Ok(place) => Ok(place),
            Err(kind) => Err(Error::new(kind)),
        }
    }

    /// The same, where the kind alone is told of what refuses it.
    ///
    /// # Errors
    ///
    /// As [`Instructions::add`].
    #[inline(always)]
    pub fn push_with_span(
        &mut self,
        instruction: Instruction<'source>,
        span: Span,
    ) -> Result<u32, ErrorKind>
        ensures place { IfOk result (λ place. place ≡ length (code_in self.old)) }
        ensures added { OnOk result (code_in self.new ≡ code_in self.old ++ code_of instruction.entry ∷ []) }
        ensures marked { OnOk result (places_in self.new ≡ places_in self.old ++ span_mark (length (code_in self.old)) span ∷ []) }
        ensures same { IsSameTemplate self.old self.new }
        ensures refused { IfErr result (λ kind. TakesNoMore (code_in self.old) (kind ∷ [])) }
        ensures full { IsFull (code_in self.old) → IsErrAnd result (λ kind. kind ≡ ErrorKind.TooLarge) }
        ensures unchanged { OnErr result (code_in self.new ≡ code_in self.old) }
        ensures unmarked { OnErr result (places_in self.new ≡ places_in self.old) }
    {
        let start = self.push(instruction)?;
        match mark_from(&mut self.marks, start, span) {
            Ok(()) => Ok(start),
            Err(_refused) => {
                self.is_numbered = false;
                Err(taken_back(&mut self.code, start))
            }
        }
    }

    /// Puts an instruction in the place of the one that stands there. Where none stands, nothing changes.
    #[inline(always)]
    pub fn replace(&mut self, index: u32, instruction: Instruction<'source>)
        ensures replaced { code_in self.new ≡ set (code_in self.old) index (code_of instruction.entry) }
        ensures same { IsSameTemplate self.old self.new }
        ensures places { places_in self.new ≡ places_in self.old }
    {
        self.is_numbered = false;
        put_at(&mut self.code, index as usize, instruction);
    }

    /// Drops the instructions from a place on. Takes time linear in their number.
    pub fn truncate(&mut self, len: usize)
        ensures kept { code_in self.new ≡ take len (code_in self.old) }
        ensures same { IsSameTemplate self.old self.new }
        ensures places { places_in self.new ≡ filter (λ m. ltb m.start len) (places_in self.old) }
    {
        self.is_numbered = false;
        self.marks.truncate(len);
        self.code.truncate(len);
    }
}

// How many parts of a kind the first so many instructions hold.
fn counted(part: Part, code: &[Instruction<'_>], count: usize) -> usize
    ensures { result ≡ count_of part (counts_before (map code_of code.now) count) }
{
    let mut parts = 0;
    let mut left = count;
    for instruction in code {
        if left == 0 {
            return parts;
        }
        left -= 1;
        if is_counted(part, instruction) {
            parts += 1;
        }
    }
    parts
}

// Where the part of a kind stands that has this number.
fn found(part: Part, code: &[Instruction<'_>], number: usize) -> Option<u32>
    requires { length code.now < 2 ^ 32 }
    ensures { result ≡ place_from part 0 (map code_of code.now) number }
{
    let mut left = number;
    let mut place = 0;
    for instruction in code {
        if is_counted(part, instruction) {
            if left == 0 {
                return Some(place);
            }
            left -= 1;
        }
        place += 1;
    }
    None
}

// Puts an item behind the others, of which there are fewer than 2^32 then too, and answers its place.
#[inline(always)]
fn put_last<T: Drop>(items: &mut Vec<T>, item: T) -> Result<u32, ErrorKind>
    requires { length items.old.items < 2 ^ 32 }
    ensures place { IfOk result (λ place. place ≡ length items.old.items) }
    ensures room { OnOk result (length items.old.items + 1 < 2 ^ 32) }
    ensures added { OnOk result (items.new.items ≡ items.old.items ++ item ∷ []) }
    ensures refused { IfErr result (λ kind.
        ((length items.old.items + 1 ≡ 2 ^ 32) × (kind ∷ [] ≡ ErrorKind.TooLarge ∷ [])) ⊎ (kind ∷ [] ≡ ErrorKind.OutOfMemory ∷ [])) }
    ensures full { length items.old.items + 1 ≡ 2 ^ 32 → IsErrAnd result (λ kind. kind ≡ ErrorKind.TooLarge) }
    ensures unchanged { OnErr result (items.new.items ≡ items.old.items) }
{
    let place = items.len();
    if place >= u32::MAX as usize {
        return Err(ErrorKind::TooLarge);
    }
    if place < items.capacity() {
        items.push_reserved(item);
        return Ok(place as u32);
    }
    if put_growing(items, item) {
        Ok(place as u32)
    } else {
        Err(ErrorKind::OutOfMemory)
    }
}

// The same where there may be no room for one more; tells whether memory was given.
#[cold]
#[inline(never)]
fn put_growing<T: Drop>(items: &mut Vec<T>, item: T) -> bool
    ensures added { IsTrue result → items.new.items ≡ items.old.items ++ item ∷ [] }
    ensures unchanged { IsTrue (not result) → items.new.items ≡ items.old.items }
{
    items.push(item).is_ok()
}

// Puts an instruction in the place of the one that stands there. Where none stands, nothing changes.
#[inline(always)]
fn put_at<'source>(
    code: &mut Vec<Instruction<'source>>,
    index: usize,
    instruction: Instruction<'source>,
)
    ensures replaced { code.new.items ≡ set code.old.items index instruction.entry }
    ensures len { length code.new.items ≡ length code.old.items }
{
    if index < code.len() {
        put_over(&mut code[index], instruction);
    }
}

// Puts an instruction in the place of another one. A jump of the same kind is told its target alone.
#[inline(always)]
fn put_over<'source>(place: &mut Instruction<'source>, instruction: Instruction<'source>)
    ensures { place.new ≡ instruction.entry }
{
    if !leads_there(place, &instruction) {
        put_whole(place, instruction);
    }
}

// Leads a jump where another one of its kind leads; tells whether both are such jumps. Else nothing changes.
#[inline(always)]
fn leads_there<'source>(place: &mut Instruction<'source>, other: &Instruction<'source>) -> bool
    ensures led { IsTrue result → place.new ≡ other.now }
    ensures stays { IsTrue (not result) → place.new ≡ place.old }
{
    match place {
        Instruction::Jump(to) => match other {
            Instruction::Jump(target) => told_target(to, *target),
            _ => false,
        },
        Instruction::JumpIfFalse(to) => match other {
            Instruction::JumpIfFalse(target) => told_target(to, *target),
            _ => false,
        },
        Instruction::JumpIfFalseOrPop(to) => match other {
            Instruction::JumpIfFalseOrPop(target) => told_target(to, *target),
            _ => false,
        },
        Instruction::JumpIfTrueOrPop(to) => match other {
            Instruction::JumpIfTrueOrPop(target) => told_target(to, *target),
            _ => false,
        },
        Instruction::Iterate(to) => match other {
            Instruction::Iterate(target) => told_target(to, *target),
            _ => false,
        },
        _ => false,
    }
}

// Tells a jump its target.
#[inline(always)]
fn told_target(to: &mut u32, target: u32) -> bool
    ensures told { to.new ≡ target }
    ensures tells { IsTrue result }
{
    *to = target;
    true
}

// Puts an instruction in the place of any other one, which is dropped.
#[cold]
#[inline(never)]
fn put_whole<'source>(place: &mut Instruction<'source>, instruction: Instruction<'source>)
    ensures { place.new ≡ instruction.entry }
{
    *place = instruction;
}

// A list with room for so many instructions where it can be had. Where it cannot, it grows as it needs.
fn with_room<'source>(alloc: Global, count: usize) -> Vec<Instruction<'source>>
    ensures { result.items ≡ [] }
{
    match Vec::with_capacity(alloc, count) {
        Ok(code) => code,
        Err(_refused) => Vec::new(alloc),
    }
}

// Marks the instructions from a place on with a span. Few spans end before the first byte does, as the default one.
#[inline(always)]
fn mark_from(marks: &mut Marks, start: u32, span: Span) -> Result<(), AllocError>
    requires { All (λ m. m.start ≤ start) (marks_in marks.old) }
    ensures marked { OnOk result (marks_in marks.new
        ≡ marks_in marks.old ++ (record { start = start; line = span.start_line; span = told_span span }) ∷ []) }
    ensures unchanged { OnErr result (marks_in marks.new ≡ marks_in marks.old) }
{
    if span.end_offset == 0 {
        return mark_early(marks, start, span);
    }
    marks.push(Mark {
        start,
        line: span.start_line,
        span: Some(span),
    })
}

#[cold]
#[inline(never)]
fn mark_early(marks: &mut Marks, start: u32, span: Span) -> Result<(), AllocError>
    requires { All (λ m. m.start ≤ start) (marks_in marks.old) }
    ensures marked { OnOk result (marks_in marks.new
        ≡ marks_in marks.old ++ (record { start = start; line = span.start_line; span = told_span span }) ∷ []) }
    ensures unchanged { OnErr result (marks_in marks.new ≡ marks_in marks.old) }
{
    marks.push(Mark {
        start,
        line: span.start_line,
        span: told(span),
    })
}

// Takes back the instruction at a place, whose mark was refused, with those behind it.
#[cold]
#[inline(never)]
fn taken_back<'source>(code: &mut Vec<Instruction<'source>>, place: u32) -> ErrorKind
    ensures kept { code.new.items ≡ take place code.old.items }
    ensures refused { result ≡ ErrorKind.OutOfMemory }
{
    code.truncate(place as usize);
    ErrorKind::OutOfMemory
}

// The span, unless it is the default one.
fn told(span: Span) -> Option<Span>
    ensures { result ≡ told_span span }
{
    if span == Span::default() {
        return None;
    }
    Some(span)
}

// Instructions with texts of their own.
fn owned_code<'owned>(
    alloc: Global,
    code: Vec<Instruction<'_>>,
) -> Result<Vec<Instruction<'owned>>, Error>
    ensures same { IfOk result (λ c. map code_of c.items ≡ map code_of code.entry.items) }
    ensures refused { IfErr result NoMemory }
{
    let mut copies = Vec::with_capacity(alloc, code.len())?;
    for instruction in code {
        copies.push(instruction.into_owned(alloc)?)?;
    }
    Ok(copies)
}
