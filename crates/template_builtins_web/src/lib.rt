//! The builtin filters that make texts for the web: JSON that means nothing to HTML, parts of URLs, and attributes of elements.
#![tactic(auto)]

mod attributes;
mod filter;
mod json_text;
mod layout;
mod leaves;
mod lines;
mod markup;
mod pretty;
mod queries;
mod urls;

pub use filter::WebFilter;
