//! The names that a source loads templates by.
ghost use Rattle.std.specs.Prelude.{◌≡◌, [], ◌++◌, IfOk, IfErr, OnOk, bytes_eq, string_bytes};
ghost use Rattle.template_compiler_tokens.specs.View.{token_of};
ghost use Rattle.template_compiler_tokens.specs.Token.{string};
ghost use Rattle.template_values_errors.specs.Memory.{NoMemory};
ghost use Rattle.template_program_reached.specs.Loaded as place;
ghost use Rattle.template_program_reached.specs.Loaded.{IsLoading, after, is_loading_word, names_from, told, told_before};
ghost use Rattle.template_program_reached.specs.Views.{names_in, place_of};

use std::alloc::Global;
use template_compiler_sources::read_tokens;
use template_compiler_stream::{First, TokenStream};
use template_compiler_syntax::SyntaxConfig;
use template_compiler_tokenizer::Tokenizer;
use template_compiler_tokens::Token;
use template_values_errors::{Error, ErrorKind};

/// Where a reader of tokens stands.
#[derive(Drop)]
enum Place {
    /// In no statement that loads templates.
    Elsewhere,
    /// Behind the start of a block.
    AtStart,
    /// In a statement that loads templates.
    Loading,
    /// In such a statement, behind a text literal.
    Naming(String),
}

/// The names that a source loads templates by, in their order: the text literals that stand in its statements `include`,
/// `import`, `from` and `extends`; literals side by side are one text. Where its tokens end with a fault, the names before
/// it. Linear.
///
/// # Errors
///
/// [`ErrorKind::OutOfMemory`]
pub fn loaded_names(alloc: Global, source: &str, syntax: SyntaxConfig) -> Result<Vec<String>, Error>
    ensures names { IfOk result (λ names. IsLoading syntax source.now (names_in names.items)) }
    ensures refused { IfErr result NoMemory }
{
    match read_tokens(alloc, Tokenizer::new(alloc, source, "", syntax), false) {
        Ok(mut tokens) => names_left(alloc, &mut tokens),
        Err(_refusal) => Err(Error::new(ErrorKind::OutOfMemory)),
    }
}

// The names in the tokens that are left.
fn names_left(alloc: Global, tokens: &mut TokenStream) -> Result<Vec<String>, Error>
    ensures names { IfOk result (λ names. names_in names.items ≡ names_from place.elsewhere tokens.old.left) }
    ensures refused { IfErr result NoMemory }
{
    let mut names = Vec::new(alloc);
    let mut place = Place::Elsewhere;
    'tokens: loop {
        match tokens.take() {
            First::Token(token, _) => place = pass(alloc, place, &token, &mut names)?,
            First::End => return ended(place, names),
            First::Bad(_) => return ended(place, names),
        }
    }
}

// The names at the end of the tokens.
fn ended(place: Place, mut names: Vec<String>) -> Result<Vec<String>, Error>
    ensures names { IfOk result (λ all. names_in all.items ≡ names_in names.items ++ told (place_of place)) }
    ensures refused { IfErr result NoMemory }
{
    if let Place::Naming(name) = place {
        names.push(name)?;
    }
    Ok(names)
}

// Where a reader stands behind one more token. A name that ends before the token is put behind the others.
fn pass(alloc: Global, place: Place, token: &Token, names: &mut Vec<String>) -> Result<Place, Error>
    ensures place { IfOk result (λ next. place_of next ≡ after (place_of place) (token_of token.now)) }
    ensures told { OnOk result (names_in names.new.items
        ≡ names_in names.old.items ++ told_before (place_of place) (token_of token.now)) }
    ensures refused { IfErr result NoMemory }
{
    match place {
        Place::Elsewhere => Ok(outside(token)),
        Place::AtStart => Ok(at_start(token)),
        Place::Loading => loading(alloc, token),
        Place::Naming(name) => naming(name, token, names),
    }
}

fn outside(token: &Token) -> Place
    ensures { place_of result ≡ after place.elsewhere (token_of token.now) }
{
    match token {
        Token::BlockStart => Place::AtStart,
        _ => Place::Elsewhere,
    }
}

fn at_start(token: &Token) -> Place
    ensures { place_of result ≡ after place.at_start (token_of token.now) }
{
    match token {
        Token::BlockStart => Place::AtStart,
        Token::Ident(word) => behind_word(word),
        _ => Place::Elsewhere,
    }
}

fn behind_word(word: &str) -> Place
    ensures { place_of result ≡ place.behind_word word.now }
{
    if is_loading_word(word) {
        Place::Loading
    } else {
        Place::Elsewhere
    }
}

// Whether a word begins a statement that loads templates.
fn is_loading_word(word: &str) -> bool
    ensures { result ≡ is_loading_word word.now }
{
    word == "include" || word == "import" || word == "from" || word == "extends"
}

fn loading(alloc: Global, token: &Token) -> Result<Place, Error>
    ensures place { IfOk result (λ next. place_of next ≡ after place.loading (token_of token.now)) }
    ensures refused { IfErr result NoMemory }
{
    match token {
        Token::Str(text) => Ok(Place::Naming(String::from_str(alloc, text)?)),
        Token::String(text) => Ok(Place::Naming(String::from_str(alloc, text.as_str())?)),
        _ => Ok(behind_no_text(token)),
    }
}

fn naming(name: String, token: &Token, names: &mut Vec<String>) -> Result<Place, Error>
    ensures place { IfOk result (λ next. place_of next ≡ after (place.naming (string_bytes name)) (token_of token.now)) }
    ensures told { OnOk result (names_in names.new.items
        ≡ names_in names.old.items ++ told_before (place.naming (string_bytes name)) (token_of token.now)) }
    ensures refused { IfErr result NoMemory }
{
    match token {
        Token::Str(more) => joined(name, more),
        Token::String(more) => joined(name, more.as_str()),
        _ => {
            names.push(name)?;
            Ok(behind_no_text(token))
        }
    }
}

// A name that goes on.
fn joined(mut name: String, more: &str) -> Result<Place, Error>
    ensures place { IfOk result (λ next. place_of next ≡ place.naming (string_bytes name ++ more.now)) }
    ensures refused { IfErr result NoMemory }
{
    name.push_str(more)?;
    Ok(Place::Naming(name))
}

// Where a reader stands behind a token in a statement that loads templates, if that is no text.
fn behind_no_text(token: &Token) -> Place
    ensures { place_of result ≡ place.behind_no_text (token_of token.now) }
{
    match token {
        Token::BlockStart => Place::AtStart,
        Token::BlockEnd => Place::Elsewhere,
        _ => Place::Loading,
    }
}
