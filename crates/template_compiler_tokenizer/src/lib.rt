//! The tokenizer: the tokens of a template's source, one after another.
#![tactic(auto)]

mod ahead;
mod all;
mod laws;
mod reach;
mod segment;
mod stream;
mod text;
mod tokenizer;

pub use laws::one_list_of_spans;
pub use stream::TokenStream;
pub use template_compiler_syntax::StartMarker;
pub use tokenizer::Tokenizer;
