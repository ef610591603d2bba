//! The next token of a template's source from a place on, in data or inside of a segment, with the places where
//! it begins and ends; and where segments end.
#![tactic(auto)]

mod data;
mod ends;
mod inside;
mod read;
mod stage;
mod starts;
mod words;

pub use data::{RawData, is_nothing, raw_data};
pub use ends::{SegmentEnd, is_white_at};
pub use inside::{Found, Piece, brackets_behind, end_token, next_place_of};
pub use read::next_piece;
pub use stage::Stage;
pub use starts::inside_from;
pub use words::only_word;
