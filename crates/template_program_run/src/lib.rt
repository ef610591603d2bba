//! What the program does with texts and a context that are read: it adds the templates in order, and
//! renders the main one or tells its names. And the body of the program, over any runtime, reader and writers.
#![tactic(auto)]

mod additions;
mod checking;
mod documents;
mod evaluating;
mod extension;
mod folder;
mod inputs;
mod lacking;
mod named;
mod names;
mod naming;
mod options;
mod origins;
mod parts;
mod performing;
mod placing;
mod refusals;
mod request;
mod running;
mod serving;
mod starting;
mod syntax;
mod telling;
mod values;

pub use additions::set_up;
pub use evaluating::{Expression, evaluate_with};
pub use extension::{OneEscape, Program};
pub use options::Options;
pub use parts::ContextParts;
pub use request::Request;
pub use running::{render, run, run_with};
pub use starting::{refuse_arguments, start};
pub use template_program_parts::{Command, Outcome, status_of};
