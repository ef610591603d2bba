//! The words that begin a statement.
ghost use Rattle.std.specs.Prelude.{◌≡◌, IsNone, IsTrue, option_map};
ghost use Rattle.template_compiler_statement_makers.specs.Surroundings.{opening_of, other_opening};
ghost use Rattle.template_compiler_grammar.specs.TemplateReaderParts.{opening};

/// The statement that a word begins.
#[derive(Clone, Copy)]
pub enum Opening {
    /// `for`
    For,
    /// `if`
    If,
    /// `with`
    With,
    /// `set`
    Set,
    /// `autoescape`
    AutoEscape,
    /// `filter`
    Filter,
    /// `block`
    Block,
    /// `import`
    Import,
    /// `from`
    From,
    /// `extends`
    Extends,
    /// `include`
    Include,
    /// `macro`
    Macro,
    /// `call`
    Call,
    /// `do`
    Do,
    /// `break`
    Break,
    /// `continue`
    Continue,
}

/// The statement that the word begins; none where it begins no statement.
pub fn opening_named(word: &str) -> Option<Opening>
    ensures { option_map opening_of result ≡ opening word.now }
{
    if goes_on_or_ends(word.as_bytes()) {
        None
    } else {
        first_opening(word)
    }
}

// A word as `else` and `endif`: about half of the words that begin tags.
fn goes_on_or_ends(word: &[u8]) -> bool
    ensures { IsTrue result → IsNone (opening word.now) }
{
    matches!(word, [b'e', b'l' | b'n', ..])
}

// The words that begin a statement, in the grammar's order.
fn first_opening(word: &str) -> Option<Opening>
    ensures { option_map opening_of result ≡ opening word.now }
{
    match word {
        "for" => Some(Opening::For),
        "if" => Some(Opening::If),
        "with" => Some(Opening::With),
        "set" => Some(Opening::Set),
        "autoescape" => Some(Opening::AutoEscape),
        "filter" => Some(Opening::Filter),
        "block" => Some(Opening::Block),
        "import" => Some(Opening::Import),
        _ => other_opening(word),
    }
}

// The words behind these, in the grammar's order.
fn other_opening(word: &str) -> Option<Opening>
    ensures { option_map opening_of result ≡ other_opening word.now }
{
    match word {
        "from" => Some(Opening::From),
        "extends" => Some(Opening::Extends),
        "include" => Some(Opening::Include),
        "macro" => Some(Opening::Macro),
        "call" => Some(Opening::Call),
        "do" => Some(Opening::Do),
        "break" => Some(Opening::Break),
        "continue" => Some(Opening::Continue),
        _ => None,
    }
}
