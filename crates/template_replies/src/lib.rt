//! Replies to requests: a request is one JSON object, and its reply a status with bytes.
#![tactic(auto)]

mod reply;
mod running;

pub use reply::{Reply, bare, refusal, reply_to, reply_to_fault};
pub use running::{options_of, reply_of, request_of};
pub use template_program_run::Command;
