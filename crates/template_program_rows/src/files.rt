//! Files that stand while a line is answered.
use crate::report::Report;
use serde_json::{Map, Value as Json};
use std::fs;
use std::os::unix::fs::symlink;

/// Writes each file to its path, in folders that are made where they do not stand.
pub(crate) fn write_files(rt: &HostRuntime, files: &Map<String, Json>, out: &mut Report) {
    for (path, bytes) in files {
        let bytes = out.bytes_of(bytes);
        make_folders(rt, path.as_str(), out);
        out.did(fs::write(rt, path.as_str(), bytes.as_slice()).is_ok())
    }
}

// Makes the folders that a path is in.
fn make_folders(rt: &HostRuntime, path: &str, out: &mut Report) {
    if let Some((folder, _)) = path.rsplit_once('/') {
        out.did(fs::create_dir_all(rt, folder).is_ok())
    }
}

/// Makes links, an object of paths with what they lead to, if there are any.
pub(crate) fn make_links(rt: &HostRuntime, links: Option<&Json>, out: &mut Report) {
    let Some(Json::Object(links)) = links else {
        return;
    };
    for (path, original) in links {
        if let Json::String(original) = original {
            out.did(symlink(rt, original.as_str(), path.as_str()).is_ok())
        }
    }
}

/// Removes a folder with what is in it, if one is named.
pub(crate) fn remove_folder(rt: &HostRuntime, folder: Option<&Json>, out: &mut Report) {
    if let Some(Json::String(folder)) = folder {
        out.did(fs::remove_dir_all(rt, folder.as_str()).is_ok())
    }
}

/// Removes the files again.
pub(crate) fn remove_files(rt: &HostRuntime, files: &Map<String, Json>, out: &mut Report) {
    for (path, _) in files {
        out.did(fs::remove_file(rt, path.as_str()).is_ok())
    }
}

/// Tells what stands in the file at a path in the end, and removes it, if it did not stand before.
pub(crate) fn tell_file(
    rt: &HostRuntime,
    path: &str,
    entries: &Map<String, Json>,
    out: &mut Report,
) {
    match fs::read(rt, path) {
        Ok(bytes) => {
            out.tell(", ", &path);
            out.push_str(" ");
            out.quoted(bytes.as_slice())
        }
        Err(_missing) => out.tell(", no ", &path),
    }
    if !stood(path, entries) {
        let _ = fs::remove_file(rt, path);
    }
}

fn stood(path: &str, entries: &Map<String, Json>) -> bool {
    match entries.get("files") {
        Some(Json::Object(files)) => files.get(path).is_some(),
        _ => false,
    }
}
