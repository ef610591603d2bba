//! Places in a source.

ghost use Rattle.std.specs.Prelude.{◌≡◌, IfOk};

use std::alloc::{AllocError, Global};

/// A stretch of a source: where it starts, and where it ends (the place behind its last character).
/// A line is one more than the newlines before the place, a column the characters since the last of
/// them; both stop at 65535. Offsets are in bytes.
#[derive(Clone, Copy, Debug, Default, PartialEq, Eq)]
pub struct Span {
    pub start_line: u16,
    pub start_col: u16,
    pub start_offset: u32,
    pub end_line: u16,
    pub end_col: u16,
    pub end_offset: u32,
}

/// A node and the stretch of the source that it was read from.
#[derive(Debug, Drop)]
pub struct Spanned<T> {
    pub node: T,
    pub span: Span,
}

impl<T> Spanned<T> {
    /// A node at a stretch of the source.
    pub fn new(node: T, span: Span) -> Spanned<T>
        ensures node { result.node ≡ node }
        ensures span { result.span ≡ span }
    {
        Spanned { node, span }
    }

    /// The node, without its place.
    pub fn into_node(self) -> T
        ensures { result ≡ self.node }
    {
        self.node
    }
}

impl<T: Drop> Spanned<T> {
    /// A node in a box of its own, at a stretch of the source.
    ///
    /// # Errors
    ///
    /// The box's memory is refused; the node is dropped.
    pub fn boxed(alloc: Global, node: T, span: Span) -> Result<Box<Spanned<T>>, AllocError>
        ensures node { IfOk result (λ n. n.value.node ≡ node) }
        ensures span { IfOk result (λ n. n.value.span ≡ span) }
    {
        Ok(Box::new(alloc, Spanned::new(node, span))?)
    }
}
