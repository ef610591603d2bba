//! The values of the template language: their kinds, their one total order, and maps.
#![tactic(auto)]

mod content;
mod laws;
mod lists;
mod lookup;
mod maps;
mod names;
mod order;
mod value;

pub use content::Content;
pub use laws::order_laws;
pub use names::is_same;
pub use value::{Entry, Value};
