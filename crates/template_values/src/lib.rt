//! The values of the template language: their kinds and their one order, the operators, the text
//! that they print and how it is escaped, the keyword arguments of calls, and contexts from JSON.
#![tactic(auto)]

pub use template_values_core::{Content, Entry, Value, order_laws};
pub use template_values_errors::{AutoEscape, Error, ErrorKind, Place, UndefinedBehavior};
pub use template_values_forms::{LoopView, MacroView, NoRecords, Records};
pub use template_values_items::{contains, get_attr, get_item, items_of, slice};
pub use template_values_json::{context_from_json, entries_from_json};
pub use template_values_named::Kwargs;
pub use template_values_operators::{add, div, int_div, mul, neg, pow, rem, sub};
pub use template_values_print::{escape_to, is_true, print_to, string_concat};
