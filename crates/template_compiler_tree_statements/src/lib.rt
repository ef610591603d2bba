//! The nodes of statements: what a template's text is parsed to.
#![tactic(auto)]

mod statements;

pub use statements::{
    AutoEscape, Block, Break, CallBlock, Continue, Do, EmitExpr, EmitRaw, Extends, FilterBlock,
    ForLoop, FromImport, IfCond, Import, Include, Macro, Set, SetBlock, Stmt, Template, WithBlock,
};
