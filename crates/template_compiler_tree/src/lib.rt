//! The nodes of expressions, and the trees that contracts see in a template's nodes.
#![tactic(auto)]

mod calls;
mod expressions;
mod makers;
mod operators;
mod span;

pub use calls::{Call, CallArg, CallType};
pub use expressions::{
    BinOp, Compare, CompareOp, Const, Expr, Filter, GetAttr, GetItem, IfExpr, List, Map, Slice,
    Test, Tuple, UnaryOp, Var,
};
pub use operators::{BinOpKind, CompareOpKind, UnaryOpKind};
pub use span::{Span, Spanned};
