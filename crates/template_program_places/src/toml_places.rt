//! The places where documents of TOML are refused.

use crate::paths::fault_path;
use crate::refusal_lines::{part_text, place_text};
use std::alloc::Global;

/// Where a document of TOML is refused. Reads it again.
pub(crate) fn toml_place(alloc: Global, name: &str, bytes: &[u8]) -> Option<String> {
    match toml::table_from_slice(alloc, bytes) {
        Ok(table) => part_text(alloc, name, fault_path(alloc, &table)?.as_str()),
        Err(refused) => start_text(alloc, name, bytes, refused.span()?.start),
    }
}

// The place of a byte of the document.
fn start_text(alloc: Global, name: &str, bytes: &[u8], start: usize) -> Option<String> {
    let before = bytes.get(..start)?;
    let line = count_newlines(before).saturating_add(1);
    place_text(alloc, name, line, behind_newline(before).saturating_add(1))
}

fn count_newlines(bytes: &[u8]) -> usize {
    let mut count: usize = 0;
    for byte in bytes {
        if *byte == b'\n' {
            count = count.saturating_add(1);
        }
    }
    count
}

// How many bytes stand behind the last newline.
fn behind_newline(bytes: &[u8]) -> usize {
    let mut count: usize = 0;
    for byte in bytes {
        count = if *byte == b'\n' {
            0
        } else {
            count.saturating_add(1)
        };
    }
    count
}
