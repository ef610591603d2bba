//! Sessions: templates that are compiled once, to be rendered often. A handle holds one as a single pointer, for who calls from C.
#![tactic(auto)]

mod additions;
mod handle;
mod opening;
mod rendering;
mod session;

pub use handle::Handle;
pub use opening::open;
pub use rendering::reply_in;
pub use session::Session;
