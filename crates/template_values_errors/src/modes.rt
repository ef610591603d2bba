//! How printed values are escaped, and what may be done with an undefined one.

/// How the values that a template prints are escaped.
#[derive(Clone, Copy, Debug, PartialEq, Eq)]
pub enum AutoEscape {
    /// Values are written as they print.
    None,
    /// Characters that HTML and XML read as markup become references.
    Html,
    /// Values are written as JSON.
    Json,
    /// A format of the embedder's own, known by a number.
    Custom(u32),
}

/// What may be done with an undefined value.
#[derive(Clone, Copy, Debug, Default, PartialEq, Eq)]
pub enum UndefinedBehavior {
    /// It prints and iterates as nothing and is false; its attributes are refused.
    #[default]
    Lenient,
    /// As lenient, and its attributes are undefined.
    Chainable,
    /// It may be tested and compared, and not printed, iterated or looked into.
    SemiStrict,
    /// It may be tested for being undefined alone.
    Strict,
}
