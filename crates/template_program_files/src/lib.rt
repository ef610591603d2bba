//! Files that are written whole: beside what stands under a path, whose place they take when all is written.
//!
//! The files below a folder, as templates under their paths from there.
#![tactic(auto)]

mod files;
mod folder_files;
mod folders;
mod listing;
mod names;
mod placing;
mod writing;

pub use folder_files::{FolderFile, read_folder};
pub use folders::{Entry, Folders};
pub use placing::{Draft, Placing};
pub use writing::{Writer, write_file};
