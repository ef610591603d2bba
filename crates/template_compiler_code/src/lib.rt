//! The instructions of the virtual machine, and what each of them does.
//!
//! Where the instructions of a template come from: lines and spans, in one packed table.
//!
//! What is asked of the instructions of a template: the names that they refer to, where its loops lead, and how much room its texts take.
#![tactic(auto)]

ghost use Rattle.template_compiler_code.specs.Laws.{CodeRises};

mod blocks;
mod instruction;
mod listing;
mod loops;
mod marks;
mod numbered;
mod references;
mod texts;

pub use blocks::{CompiledBlock, block_among, own_blocks};
pub use instruction::{
    CaptureMode, CompareOp, Instruction, LOOP_FLAG_RECURSIVE, LOOP_FLAG_WITH_LOOP_VAR, LocalId,
    MACRO_CALLER, MAX_LOCALS,
};
pub use listing::Instructions;
pub use loops::iterates_past;
pub use marks::{Mark, Marks};
pub use numbered::Part;
pub use references::get_referenced_names;
pub use texts::buffer_size_hint;

/// Code that may run for more instructions does what it did, as far as that went.
pub fn code_rises()
    ensures { CodeRises }
{}
