//! Python's method `format` of texts: fields in braces, and what stands in their places.
#![tactic(auto)]

mod arguments;
mod fields;
mod formats;
mod layouts;
mod method;
mod numerals;
mod padding;
mod shown;

pub use method::FieldMethod;
