//! What a machine does at each instruction but a call, a return, and those that run a template, a block or rounds, or load blocks.
#![tactic(auto)]

mod asides;
mod at_once;
mod attributes;
mod bounds;
mod captures;
mod escapes;
mod exports;
mod frames;
mod loops;
mod macros;
mod names;
mod operands;
mod plain;
mod scoped;
mod writing;

pub use asides::{made_of, number_given};
pub use at_once::{begin_at_once, perform_at_once};
pub use attributes::set_attr;
pub use bounds::Bounds;
pub use captures::{begin_capture, end_capture};
pub use escapes::{pop_auto_escape, push_auto_escape};
pub use exports::export_locals;
pub use frames::{pop_frame, push_with};
pub use loops::{
    is_recursive, iterate, iterate_at_once, pop_loop_frame, push_did_not_iterate, push_loop,
};
pub use macros::{build_macro, enclose, get_closure};
pub use names::{
    lookup, lookup_at_once, lookup_global, number_named, store_local, store_local_at_once,
    store_number,
};
pub use operands::straight;
pub use plain::perform_at_length;
pub use writing::{emit, emit_raw, emit_value};
