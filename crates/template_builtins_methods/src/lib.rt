//! The methods that values have as Python's do: what each makes of a value and of its arguments, and the callback that answers for
//! them by name.
#![tactic(auto)]

mod cases;
mod characters;
mod ends;
mod letters;
mod lists;
mod maps;
mod method;
mod names;
mod placed;
mod places;
mod reading;
mod strips;
mod texts;

pub use lists::ListMethod;
pub use maps::MapMethod;
pub use method::{PythonMethod, PythonMethods};
pub use names::{FIELD_METHODS, LIST_METHODS, MAP_METHODS, PIECE_METHODS, TEXT_METHODS};
pub use texts::TextMethod;
