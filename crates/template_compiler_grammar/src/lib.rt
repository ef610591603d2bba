//! The grammar of expressions and of templates over their tokens, one constructor a production; the reader of both from left to
//! right, with the places of their nodes; and the laws that these are one: tokens are one expression, or one template, or none.
//! The grammar is in `specs/Grammar.antt` and `specs/TemplateGrammar.antt`, the reader in `specs/Reader.antt` and
//! `specs/TemplateReader.antt`. Here is no code but laws.
#![tactic(auto)]

mod derivations;
mod laws;
mod places;
pub mod template_laws;
mod templates;
mod trees;

pub use derivations::{stands_alone, stands_whole};
pub use laws::{is_decided, one_expression, reads_the_grammar};
pub use places::{reads_with_places, stands_once};
pub use templates::{templates_read_with_places, templates_stand_once};
pub use trees::own_span_first;
