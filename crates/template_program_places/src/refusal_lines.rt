//! Places of documents as text.

use std::alloc::Global;

/// A line and a column behind a document's name.
pub(crate) fn place_text(alloc: Global, name: &str, line: usize, column: usize) -> Option<String> {
    format!(in alloc; "{name}:{line}:{column}").ok()
}

/// The path of a part behind a document's name, or the name alone where the path is empty.
pub(crate) fn part_text(alloc: Global, name: &str, path: &str) -> Option<String> {
    if path.is_empty() {
        String::from_str(alloc, name).ok()
    } else {
        format!(in alloc; "{name}: {path}").ok()
    }
}
