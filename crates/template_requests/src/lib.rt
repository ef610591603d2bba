//! Requests as one JSON object: what its members say, and which of them is refused.
#![tactic(auto)]

mod configured;
mod failures;
mod faults;
mod leaves;
mod member;
mod message;
mod opening;
mod reading;
mod settings;
mod syntax;
mod templates;

pub use configured::syntax_of;
pub use failures::{failure_text, malformed_text};
pub use faults::MessageFault;
pub use member::Member;
pub use message::{Message, message_in};
pub use opening::{Opening, opening_in};
pub use reading::tree_of;
pub use settings::{Settings, settings_in};
pub use syntax::SyntaxParts;
pub use templates::templates_in;
