//! Where a running template looks names up: frames with their locals, loops and contexts.
#![tactic(auto)]

mod closures;
mod context;
mod frame;
mod further;
mod growth;
mod indexed;
mod local;
mod locals;
mod names;

pub use closures::Closures;
pub use context::Context;
pub use frame::Frame;
pub use locals::Locals;
pub use template_machine_loops::{LoopState, Rounds};
