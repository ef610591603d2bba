//! Parts of values at paths, as the builtins' arguments `attribute` and `path` name them.
#![tactic(auto)]

mod items;
mod parts;

pub use items::{part_or_self, parts_at, path_from};
pub use parts::{is_path, part_of, part_of_undefined};
