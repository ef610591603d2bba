//! Places in a document.

use std::alloc::Global;

/// A line and a column, both from 1 on; 0 where there is none.
#[derive(Clone, Copy, Debug, Drop)]
pub(crate) struct Place {
    pub(crate) line: usize,
    pub(crate) column: usize,
}

impl Place {
    /// No place.
    pub(crate) fn nowhere() -> Place {
        Place { line: 0, column: 0 }
    }

    /// The place of a byte of a document, or of its end. The column counts bytes, as `serde_json` does. Linear in what stands before
    /// it.
    pub(crate) fn of(bytes: &[u8], offset: usize) -> Place {
        let before = bytes.get(..offset).unwrap_or(bytes);
        let mut line: usize = 1;
        let mut column: usize = 0;
        for byte in before {
            if *byte == b'\n' {
                line = line.saturating_add(1);
                column = 0;
            } else {
                column = column.saturating_add(1);
            }
        }
        if offset < bytes.len() {
            column = column.saturating_add(1);
        }
        Place { line, column }
    }
}

/// The place where `serde_json` cannot read the bytes, which it reads for this. Linear in their number.
pub(crate) fn fault_place(alloc: Global, bytes: &[u8]) -> Place {
    match serde_json::Value::from_slice(alloc, bytes) {
        Err(fault) if !fault.is_memory() => Place {
            line: fault.line(),
            column: fault.column(),
        },
        _ => Place::nowhere(),
    }
}
