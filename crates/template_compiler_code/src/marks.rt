//! The table of marks.
ghost use Rattle.std.specs.Prelude.{◌≡◌, ◌<◌, ◌≤◌, [], ◌∷◌, ◌++◌, All, OnOk, OnErr, filter, ltb, vec_len, vec_capacity};
ghost use Rattle.std.specs.List.Sorted.{IsNonDecreasingBy};

use std::alloc::{AllocError, Global};
use template_compiler_tree::Span;

/// Where a run of instructions comes from: from the instruction that it begins at, up to the next mark.
#[derive(Clone, Copy, Debug, PartialEq, Eq)]
pub struct Mark {
    /// The place of the first of the instructions.
    pub start: u32,
    /// Their line, the first of a source at 1.
    pub line: u16,
    /// Their span, where one was told.
    pub span: Option<Span>,
}

/// The marks of a stream of instructions, in their order.
#[derive(Drop)]
pub struct Marks {
    entries: Vec<Mark>,
    ghost ordered: { IsNonDecreasingBy (λ m. m.start) entries.items },
}

impl Marks {
    ghost use Rattle.template_compiler_code.specs.Marked.{marks_in, mark_at, last_before, line_at, span_at};

    /// No marks yet.
    pub fn new(alloc: Global) -> Marks
        ensures { marks_in result ≡ [] }
    {
        Marks {
            entries: Vec::new(alloc),
        }
    }

    /// No marks yet, with room for so many where it can be had. Where it cannot, the table grows as it needs.
    pub fn with_room(alloc: Global, count: usize) -> Marks
        ensures { marks_in result ≡ [] }
    {
        match Vec::with_capacity(alloc, count) {
            Ok(entries) => Marks { entries },
            Err(_refused) => Marks::new(alloc),
        }
    }

    /// Gives back the room behind the last mark, where it can be.
    pub fn shrink_to_fit(&mut self)
        ensures { marks_in self.new ≡ marks_in self.old }
    {
        self.entries.shrink_to_fit();
    }

    /// The line of an instruction: that of the last mark at or before it. Takes a search by halving.
    pub fn line(&self, index: u32) -> Option<u16>
        ensures { result ≡ line_at (marks_in self.now) index }
    {
        match self.mark(index) {
            Some(mark) => Some(mark.line),
            None => None,
        }
    }

    /// The span of an instruction: that of the last mark at or before it, where it has one. Takes a search by
    /// halving.
    pub fn span(&self, index: u32) -> Option<Span>
        ensures { result ≡ span_at (marks_in self.now) index }
    {
        self.mark(index)?.span
    }

    // The last mark at or before an instruction.
    fn mark(&self, index: u32) -> Option<Mark>
        ensures { result ≡ mark_at (marks_in self.now) index }
    {
        let count = self
            .entries
            .as_slice()
            .partition_point(|mark| mark.start <= index);
        self.before(count)
    }

    // The mark before a place in the table.
    fn before(&self, count: usize) -> Option<Mark>
        ensures { result ≡ last_before (marks_in self.now) count }
    {
        if count == 0 {
            return None;
        }
        self.entries.get(count - 1).copied()
    }

    /// Marks the instructions from a place on, which lies behind no mark.
    ///
    /// # Errors
    ///
    /// The table's growth is refused; it is then as it was.
    #[inline(always)]
    pub fn push(&mut self, mark: Mark) -> Result<(), AllocError>
        requires { All (λ m. m.start ≤ mark.start) (marks_in self.now) }
        ensures marked { OnOk result (marks_in self.new ≡ marks_in self.old ++ mark ∷ []) }
        ensures unchanged { OnErr result (marks_in self.new ≡ marks_in self.old) }
    {
        put_last(&mut self.entries, mark)
    }

    /// Drops the marks that begin at a place or behind it. Takes a search by halving.
    pub fn truncate(&mut self, len: usize)
        ensures { marks_in self.new ≡ filter (λ m. ltb m.start len) (marks_in self.old) }
    {
        let count = self
            .entries
            .as_slice()
            .partition_point(|mark| (mark.start as usize) < len);
        self.entries.truncate(count);
    }
}

// Puts a mark behind the others.
#[inline(always)]
fn put_last(entries: &mut Vec<Mark>, mark: Mark) -> Result<(), AllocError>
    ensures marked { OnOk result (entries.new.items ≡ entries.old.items ++ mark ∷ []) }
    ensures unchanged { OnErr result (entries.new.items ≡ entries.old.items) }
{
    if entries.len() >= entries.capacity() {
        make_room(entries)?;
    }
    entries.push_reserved(mark);
    Ok(())
}

// Makes room for one mark more.
#[cold]
#[inline(never)]
fn make_room(entries: &mut Vec<Mark>) -> Result<(), AllocError>
    ensures same { entries.new.items ≡ entries.old.items }
    ensures room { OnOk result (vec_len entries.new < vec_capacity entries.new) }
{
    entries.reserve(1)
}
