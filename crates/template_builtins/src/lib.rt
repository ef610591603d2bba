//! The usual filters and tests of Jinja2, and Python's methods, for an environment that wants them: none has them by itself.
//!
//! [`Builtins`] is an [`Extension`] that takes them alone. A program with callables of its own takes them beside its own: its
//! `Callable` is then made from a [`Builtin`] too, and its `Method` from [`PythonMethods`], by `From`.
#![tactic(auto)]

mod extension;
mod installing;
mod laws;

pub use extension::Builtins;
pub use installing::install;
pub use laws::{builtins_answer, builtins_ask_no_names};
pub use template_builtins_callables::{Builtin, Filter, Kind, Test, filter_named, test_named};
pub use template_builtins_methods::{PythonMethod, PythonMethods};
