//! The laws of contexts.
ghost use Rattle.template_program_contexts.specs.Laws.{NoDocument, OneDocument};

/// A context of one JSON document and definitions alone, whose floats are refused, is that of `read_context`, and so is one without
/// a document. Does nothing.
pub fn context_laws()
    ensures one { OneDocument }
    ensures none { NoDocument }
{}
