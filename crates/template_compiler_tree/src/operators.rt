//! The operators of expressions.

/// An operator with one operand.
#[derive(Clone, Copy, Debug, PartialEq, Eq)]
pub enum UnaryOpKind {
    /// `not`.
    Not,
    /// `-`.
    Neg,
}

/// An operator with two operands.
#[derive(Clone, Copy, Debug, PartialEq, Eq)]
pub enum BinOpKind {
    /// `==`.
    Eq,
    /// `!=`.
    Ne,
    /// `<`.
    Lt,
    /// `<=`.
    Lte,
    /// `>`.
    Gt,
    /// `>=`.
    Gte,
    /// `and`, whose right side runs only where the left one is true.
    ScAnd,
    /// `or`, whose right side runs only where the left one is false.
    ScOr,
    /// `+`.
    Add,
    /// `-`.
    Sub,
    /// `*`.
    Mul,
    /// `/`.
    Div,
    /// `//`.
    FloorDiv,
    /// `%`.
    Rem,
    /// `**`.
    Pow,
    /// `~`.
    Concat,
    /// `in`.
    In,
}

/// A comparison in a chain of them.
#[derive(Clone, Copy, Debug, PartialEq, Eq)]
pub enum CompareOpKind {
    /// `==`.
    Eq,
    /// `!=`.
    Ne,
    /// `<`.
    Lt,
    /// `<=`.
    Lte,
    /// `>`.
    Gt,
    /// `>=`.
    Gte,
    /// `in`.
    In,
    /// `not in`.
    NotIn,
}
