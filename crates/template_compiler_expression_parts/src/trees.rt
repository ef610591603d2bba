//! The trees of comparisons and of tests.
ghost use Rattle.std.specs.Prelude.{◌≡◌, [], ◌∷◌, IfOk};
ghost use Rattle.std.specs.Cow.{cow_str_bytes};
ghost use Rattle.template_compiler_grammar.specs.Nodes.{compared_node, tested_node};
ghost use Rattle.template_compiler_grammar.specs.Views.{node_of, placed_arguments_in, placed_links_in};

use std::alloc::{AllocError, Global};
use std::borrow::CowStr;
use template_compiler_tree::{
    BinOpKind, CallArg, CompareOp, CompareOpKind, Expr, Span, UnaryOpKind,
};

/// A value with the comparisons behind it: none is the value, one an operator, more are a chain.
pub fn compared<'source>(
    alloc: Global,
    value: Expr<'source>,
    links: Vec<CompareOp<'source>>,
    span: Span,
) -> Result<Expr<'source>, AllocError>
    ensures { IfOk result (λ e. node_of e ≡ compared_node (node_of value.entry) (placed_links_in links.entry.items) span) }
{
    let mut links = links;
    if links.len() > 1 {
        return Expr::chain(alloc, value, links, span);
    }
    match links.pop() {
        Some(link) => compared_once(alloc, value, link, span),
        None => Ok(value),
    }
}

// One comparison; `not in` is `not` of `in`.
fn compared_once<'source>(
    alloc: Global,
    value: Expr<'source>,
    link: CompareOp<'source>,
    span: Span,
) -> Result<Expr<'source>, AllocError>
    ensures { IfOk result (λ e. node_of e ≡ compared_node (node_of value.entry) (placed_links_in (link.entry ∷ [])) span) }
{
    let CompareOp { op, expr } = link;
    let kind = match op {
        CompareOpKind::Eq => BinOpKind::Eq,
        CompareOpKind::Ne => BinOpKind::Ne,
        CompareOpKind::Lt => BinOpKind::Lt,
        CompareOpKind::Lte => BinOpKind::Lte,
        CompareOpKind::Gt => BinOpKind::Gt,
        CompareOpKind::Gte => BinOpKind::Gte,
        CompareOpKind::In => BinOpKind::In,
        CompareOpKind::NotIn => {
            let within = Expr::binary(alloc, BinOpKind::In, value, expr, span)?;
            return Expr::unary(alloc, UnaryOpKind::Not, within, span);
        }
    };
    Expr::binary(alloc, kind, value, expr, span)
}

/// A test of a value, or its negation.
pub fn tested<'source>(
    alloc: Global,
    negated: bool,
    name: CowStr<'source>,
    value: Expr<'source>,
    arguments: Vec<CallArg<'source>>,
    span: Span,
) -> Result<Expr<'source>, AllocError>
    ensures { IfOk result
        (λ e. node_of e ≡ tested_node negated (cow_str_bytes name.entry) (node_of value.entry)
        (placed_arguments_in arguments.entry.items) span) }
{
    let test = Expr::tested(alloc, name, value, arguments, span)?;
    if negated {
        Expr::unary(alloc, UnaryOpKind::Not, test, span)
    } else {
        Ok(test)
    }
}
