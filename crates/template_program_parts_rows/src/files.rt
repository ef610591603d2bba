//! Files that stand while a line is answered.
use crate::report::Report;
use serde_json::{Map, Value as Json};
use std::fs;
use template_values_errors::ErrorKind;

/// Writes each file to its path.
pub(crate) fn write_files(rt: &HostRuntime, files: &Map<String, Json>, out: &mut Report) {
    for (path, bytes) in files {
        let bytes = out.bytes_of(bytes);
        if fs::write(rt, path.as_str(), bytes.as_slice()).is_err() {
            out.refuse(ErrorKind::WriteFailure);
        }
    }
}

/// Removes them again.
pub(crate) fn remove_files(rt: &HostRuntime, files: &Map<String, Json>, out: &mut Report) {
    for (path, _) in files {
        if fs::remove_file(rt, path.as_str()).is_err() {
            out.refuse(ErrorKind::WriteFailure);
        }
    }
}
