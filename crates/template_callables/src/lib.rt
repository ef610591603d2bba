//! What a user of the engine brings: functions, filters and tests, what answers for unknown methods, how values are printed, which
//! templates names mean; what these see of a run, and what they answer.
#![tactic(auto)]

mod answer;
mod callable;
mod callbacks;
mod copies;
mod either;
mod extension;
mod format;
mod join;
mod method;
mod view;

pub use answer::{Answer, Further};
pub use callable::{Callable, NoCallable};
pub use callbacks::Callbacks;
pub use copies::copy_all;
pub use either::Either;
pub use extension::{Extension, NoExtension};
pub use format::{FormatAnswer, Formatter, NoFormatter};
pub use join::{NoJoin, PathJoin};
pub use method::{NoMethod, UnknownMethod};
pub use view::{CallView, Temps};
