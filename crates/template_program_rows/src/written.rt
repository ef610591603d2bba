//! Files that are written whole, each in a folder that is made for its line.
use crate::report::Report;
use crate::writer::Text;
use serde_json::{Map, Value as Json};
use std::fs::Metadata;
use std::os::unix::fs::symlink;
use std::{fs, io};
use template_program_files::write_file;
use template_program_parts::FileFault;
use template_rows::{number_of, pairs_of, text_of, texts_of};
use template_values_errors::ErrorKind;

// The folder that is made for a line.
const FOLDER: &str = "folder";

/// Writes a file beside those that the entries tell, and tells how it went, and what stands in the folder then.
pub(crate) fn about_written(
    rt: &HostRuntime,
    name: &str,
    entries: &Map<String, Json>,
    out: &mut Report,
) {
    out.expect_names(
        entries,
        &[
            "write",
            "text",
            "status",
            "files",
            "protected",
            "folders",
            "links",
        ],
    );
    out.did(fs::create_dir(rt, FOLDER).is_ok());
    fill(rt, entries, out);
    write(rt, name, entries, out);
    tell_folder(rt, out);
    out.did(fs::remove_dir_all(rt, FOLDER).is_ok())
}

// Makes the files, the folders and the links of a line.
fn fill(rt: &HostRuntime, entries: &Map<String, Json>, out: &mut Report) {
    make_files(rt, entries.get("files"), out);
    protect_files(rt, entries.get("protected"), out);
    make_folders(rt, entries.get("folders"), out);
    make_links(rt, entries.get("links"), out)
}

fn make_files(rt: &HostRuntime, files: Option<&Json>, out: &mut Report) {
    let files = out.or(pairs_of(rt.alloc(), files), Vec::new(rt.alloc()));
    for (name, text) in &files {
        let path = below(rt, name.as_str(), out);
        out.did(fs::write(rt, path.as_str(), text.as_str()).is_ok())
    }
}

fn make_links(rt: &HostRuntime, links: Option<&Json>, out: &mut Report) {
    let links = out.or(pairs_of(rt.alloc(), links), Vec::new(rt.alloc()));
    for (name, original) in &links {
        let path = below(rt, name.as_str(), out);
        out.did(symlink(rt, original.as_str(), path.as_str()).is_ok())
    }
}

fn make_folders(rt: &HostRuntime, folders: Option<&Json>, out: &mut Report) {
    let folders = names_of(rt, folders, out);
    for name in &folders {
        let path = below(rt, *name, out);
        out.did(fs::create_dir(rt, path.as_str()).is_ok())
    }
}

fn protect_files(rt: &HostRuntime, files: Option<&Json>, out: &mut Report) {
    let files = names_of(rt, files, out);
    for name in &files {
        let path = below(rt, *name, out);
        out.did(protect(rt, path.as_str()).is_ok())
    }
}

// Takes the leave to write the file at a path.
fn protect(rt: &HostRuntime, path: &str) -> io::Result<()> {
    let mut permissions = fs::metadata(rt, path)?.permissions();
    permissions.set_readonly(true);
    fs::set_permissions(rt, path, permissions)
}

// The names that an array lists; none, if none stands.
fn names_of<'line>(
    rt: &HostRuntime,
    names: Option<&'line Json>,
    out: &mut Report,
) -> Vec<&'line str> {
    match names {
        None => Vec::new(rt.alloc()),
        Some(names) => out.or(texts_of(rt.alloc(), names), Vec::new(rt.alloc())),
    }
}

// The path of what has this name in the folder.
fn below(rt: &HostRuntime, name: &str, out: &mut Report) -> String {
    out.made(format!(in rt.alloc(); "{FOLDER}/{name}"))
}

// Writes the file, and tells how it went.
fn write(rt: &HostRuntime, name: &str, entries: &Map<String, Json>, out: &mut Report) {
    let path = below(rt, name, out);
    let writer = Text {
        text: out.or(text_of(entries.get("text")), None).unwrap_or(""),
        status: status_of(entries.get("status"), out),
    };
    match write_file(rt, path.as_str(), &writer, &mut rt.stderr()) {
        Ok(status) => out.tell("status ", &status),
        Err(FileFault::File) => out.push_str("File"),
        Err(FileFault::Memory) => out.push_str("Memory"),
    }
}

// A status; 0, if left out.
fn status_of(status: Option<&Json>, out: &mut Report) -> u8 {
    let status = out.or(number_of(status), None).unwrap_or(0);
    match u8::try_from(status) {
        Ok(status) => status,
        Err(_too_large) => {
            out.refuse(ErrorKind::SyntaxError);
            0
        }
    }
}

// What stands in the folder, in the order of the names.
fn tell_folder(rt: &HostRuntime, out: &mut Report) {
    match &names_in_folder(rt) {
        Ok(names) => tell_each(rt, names.as_slice(), out),
        Err(_unread) => out.refuse(ErrorKind::WriteFailure),
    }
}

fn names_in_folder(rt: &HostRuntime) -> io::Result<Vec<String>> {
    let mut names = Vec::new(rt.alloc());
    for entry in fs::read_dir(rt, FOLDER)? {
        names.push(String::from_str(rt.alloc(), entry?.file_name())?)?;
    }
    names.sort()?;
    Ok(names)
}

fn tell_each(rt: &HostRuntime, names: &[String], out: &mut Report) {
    for name in names {
        out.push_str(", ");
        out.push_str(name.as_str());
        let path = below(rt, name.as_str(), out);
        tell_found(rt, path.as_str(), out)
    }
}

fn tell_found(rt: &HostRuntime, path: &str, out: &mut Report) {
    match fs::symlink_metadata(rt, path) {
        Ok(found) => tell_kind(rt, path, &found, out),
        Err(_missing) => out.refuse(ErrorKind::WriteFailure),
    }
}

// `/` for a folder, the text of a file, and whether it is protected, or the text that a link leads to.
fn tell_kind(rt: &HostRuntime, path: &str, found: &Metadata, out: &mut Report) {
    if found.is_dir() {
        return out.push_str("/");
    }
    if found.is_symlink() {
        return tell_text(rt, " -> ", path, out);
    }
    tell_text(rt, " ", path, out);
    if found.permissions().readonly() {
        out.push_str(" protected")
    }
}

fn tell_text(rt: &HostRuntime, words: &str, path: &str, out: &mut Report) {
    out.push_str(words);
    match fs::read(rt, path) {
        Ok(bytes) => out.quoted(bytes.as_slice()),
        Err(_missing) => out.refuse(ErrorKind::WriteFailure),
    }
}
