//! The bodies that templates give to blocks, and where a running stream is at home.
//!
//! What an environment gives to each run: its number, values under names, and its own functions among them.
//!
//! The records of a run: its namespaces, its macros, and what `changed` was called with for its loops.
#![tactic(auto)]

mod bodies;
mod call;
mod functions;
mod given;
mod globals;
mod home;
mod macros;
mod namespace;
mod namespaces;
mod stack;

pub use functions::{OWN_FUNCTIONS, OwnFunction};
pub use given::Given;
pub use globals::Globals;
pub use home::{Home, Stream};
pub use macros::MacroRecord;
pub use namespaces::Namespaces;
pub use stack::{Behind, BlockStack, Body};
