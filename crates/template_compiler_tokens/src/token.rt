//! What a template's text is parted into.

/// A token. Names, data and texts without escapes are slices of the source.
#[derive(Debug, Drop)]
pub enum Token<'source> {
    /// Text between the segments, which is written as it stands; never empty.
    TemplateData(&'source str),
    /// The start of a print, with its sign: `{{` in the default syntax.
    VariableStart,
    /// The end of a print, with its sign: `}}` in the default syntax.
    VariableEnd,
    /// The start of a block or of a line statement: `{%` in the default syntax.
    BlockStart,
    /// The end of a block or of a line statement: `%}` in the default syntax.
    BlockEnd,
    /// A name or a word.
    Ident(&'source str),
    /// A text literal without escapes: what stands between its quotes.
    Str(&'source str),
    /// A text literal whose escapes were read.
    String(String),
    /// A whole number below 2^64.
    Int(u64),
    /// A whole number from 2^64 up to 2^127 - 1.
    Int128(u128),
    /// `+`.
    Plus,
    /// `-`.
    Minus,
    /// `*`.
    Mul,
    /// `/`.
    Div,
    /// `//`.
    FloorDiv,
    /// `**`.
    Pow,
    /// `%`.
    Mod,
    /// `.`.
    Dot,
    /// `,`.
    Comma,
    /// `:`.
    Colon,
    /// `~`.
    Tilde,
    /// `=`.
    Assign,
    /// `|`.
    Pipe,
    /// `==`.
    Eq,
    /// `!=`.
    Ne,
    /// `>`.
    Gt,
    /// `>=`.
    Gte,
    /// `<`.
    Lt,
    /// `<=`.
    Lte,
    /// `[`.
    BracketOpen,
    /// `]`.
    BracketClose,
    /// `(`.
    ParenOpen,
    /// `)`.
    ParenClose,
    /// `{`.
    BraceOpen,
    /// `}`.
    BraceClose,
}
