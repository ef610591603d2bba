//! How the values' events of a running template are answered: operators, parts of values, containers, calls, spreads,
//! truth, loops' items, modules, printed texts and escapes, under what may be done with undefined values.
#![tactic(auto)]

mod called;
mod calls;
mod containers;
mod dicts;
mod escapes;
mod functions;
mod methods;
mod modules;
mod namespaces;
mod operators;
mod parts;
mod printing;
mod ranges;
mod sequence;
mod spreads;
mod undefined;

pub use called::Called;
pub use calls::{call_found, call_named, call_value};
pub use containers::{build_kwargs, build_list, build_map, build_tuple};
pub use dicts::dict;
pub use escapes::escape_named;
pub use methods::call_method;
pub use modules::module_from;
pub use namespaces::namespace;
pub use operators::{compare, invert, negate, operate, truth_of};
pub use parts::{get_attribute, get_item, get_slice};
pub use printing::{make_text, print, write};
pub use ranges::range;
pub use sequence::{choices_in, iterate, unpack};
pub use spreads::{merge_kwargs, spread};
pub use undefined::{forbids_operator, forbids_printing, refusal};
