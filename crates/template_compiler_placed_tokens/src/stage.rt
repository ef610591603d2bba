//! Where a tokenizer stands.
use template_compiler_syntax::{Edge, StartMarker};

/// What stands at a tokenizer's place.
#[derive(Clone, Copy)]
pub enum Stage {
    /// Data, behind this.
    Data(Edge),
    /// The start marker of a segment of the kind.
    Start(StartMarker),
    /// The inside of a segment of the kind, where so many brackets are open.
    Inside(StartMarker, usize),
}
