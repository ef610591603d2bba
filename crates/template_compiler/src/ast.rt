//! The nodes of a tree.

pub use template_compiler_tree::{
    BinOp, BinOpKind, Call, CallArg, CallType, Compare, CompareOp, CompareOpKind, Const, Expr,
    Filter, GetAttr, GetItem, IfExpr, List, Map, Slice, Span, Spanned, Test, Tuple, UnaryOp,
    UnaryOpKind, Var,
};
pub use template_compiler_tree_statements::{
    AutoEscape, Block, Break, CallBlock, Continue, Do, EmitExpr, EmitRaw, Extends, FilterBlock,
    ForLoop, FromImport, IfCond, Import, Include, Macro, Set, SetBlock, Stmt, Template, WithBlock,
};
