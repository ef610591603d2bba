//! What calls come to where a user's own answers them, and the instructions that call; and values that are printed as a user's own
//! says.
#![tactic(auto)]

mod asking;
mod binding;
mod calls;
mod chain;
mod formatted;
mod heard;
mod instructions;
mod outcome;
mod reached;
mod rules;
mod turning;

pub use binding::{Bound, bind};
pub use calls::{call_filter, call_found, call_test};
pub use formatted::{emit_formatted, format_value};
pub use instructions::{apply_filter, call_function, call_method, call_object, perform_test};
pub use reached::{Entering, Entry, Reached, Turning};
pub use rules::Rules;
pub use turning::turn_all;
