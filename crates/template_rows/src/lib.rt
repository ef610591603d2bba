//! What the programs read alike whose stored runs are tables: a row is a line with a JSON object, whose entries say what is
//! asked for, and how an input and an output do that go with it.
//!
//! A reading of an entry that may be left out takes what was looked up, and gives nothing where there is none. Each reading
//! refuses with `SyntaxError` what is of another kind, and those that take memory with `OutOfMemory` where none is left.
//!
//! What cases of renders bring: functions, filters, tests, unknown methods, formatters and path joins whose answers are described by
//! data.
#![tactic(auto)]

mod brought;
mod entries;
mod formatted;
mod joined;
mod streams;
mod what;

pub use brought::Brought;
pub use entries::{
    behavior_of, bytes_of, count_of, expect_names, kind_of, number_of, pairs_of, quoted, text_of,
    texts_of, unreadable,
};
pub use joined::{Joined, Means};
pub use streams::{Input, Output, READY};
pub use what::{First, Named, Seen, What};
