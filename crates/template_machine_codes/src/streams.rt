//! The laws of streams that no compiler wrote: every run of verified streams ends. The functions do nothing: each stands for
//! the law in its contract.

ghost use Rattle.template_machine_codes.specs.StreamLaws.{EveryFirstRunEnds, EveryStreamEnds, EveryStreamLeaves};

/// Every run of verified streams ends, whichever of them, or of their macros and of their loops that may be called again, is run: under
/// some bound it comes to its end, or to a fault, and is never lost. What the run finds, macros and loops, comes from such streams too, and
/// so does what it leaves, whichever its end.
pub fn every_stream_ends()
    ensures { EveryStreamEnds }
{}

/// So the instructions of a stream end, under some bound, and leave what its kind says: an expression's one value, and of a template
/// nothing.
pub fn every_stream_leaves()
    ensures { EveryStreamLeaves }
{}

/// So the run of a template ends whose stream is verified, and those that it includes or extends: over any context, from its start in a
/// state of its own.
pub fn every_first_run_ends()
    ensures { EveryFirstRunEnds }
{}
