//! Where an error happened, as `--where` tells it: behind the fault line each place with its source line.
//!
//! Where a context was refused, as `--where` tells it: the document with a line and a column, or with the path of what it may
//! not have.
#![tactic(auto)]

mod characters;
mod documents;
mod excerpt;
mod lines;
mod paths;
mod places;
mod refusal_lines;
mod refusal_telling;
mod telling;
mod toml_places;

pub use documents::{document_place, value_place};
pub use places::places_text;
pub use refusal_telling::write_refused;
pub use telling::{write_placed, write_placed_word};
