//! What surrounds a run: writers, what becomes of their answers, and why a sink over one took no more; which escape the name of a
//! template stands for; and numbers for the states of renders.
#![tactic(auto)]

mod escape;
mod fault;
mod ids;
mod output;
mod wrapper;
mod writer;

pub use escape::{
    AutoEscapeRule, EscapeRule, NoRule, default_auto_escape_callback, one_escape, one_rule,
};
pub use fault::SinkFault;
pub use ids::StateIds;
pub use output::{NullWriter, Sink, write_text};
pub use wrapper::WriteWrapper;
pub use writer::{Writer, rest_after, write_once};
