//! The builtin filters and tests as callables, and the tables of their names.
#![tactic(auto)]

mod builtin;
mod each;
mod filter;
mod names;
mod naming;
mod selecting;
mod test;

pub use builtin::{Builtin, Kind};
pub use each::EachFilter;
pub use filter::Filter;
pub use names::{FILTERS, TESTS, filter_named, test_named};
pub use test::Test;
