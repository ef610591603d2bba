//! What surrounds a running template: where it stands, its frames, its depth, the escape in force, what of its text is captured,
//! and what callables have set.
#![tactic(auto)]

mod caller;
mod capture;
mod entering;
mod leaving;
mod names;
mod records;
mod scopes;
mod state;
mod texts;
mod written;

pub use caller::Caller;
pub use state::State;
pub use template_machine_frames::{LoopState, Rounds};
pub use template_machine_tables::{Behind, Body, Home, MacroRecord, Stream};
