//! The scanner of one token: which token a text begins with, and where it ends.
#![tactic(auto)]

mod bytes;
mod escapes;
mod numbers;
mod scan;
mod signs;
mod texts;

pub use scan::{leading_name, scan_digit, scan_mark, scan_name, scan_token};
