//! Expressions.
ghost use Rattle.std.specs.Prelude.{◌≡◌};

use crate::calls::{Call, CallArg};
use crate::operators::{BinOpKind, CompareOpKind, UnaryOpKind};
use crate::span::{Span, Spanned};
use std::borrow::CowStr;
use template_values_core::Value;

/// An expression. Its left parts may nest as deep as the source is long, all others at most 150 deep:
/// what goes over a tree goes along its left parts in a loop, and calls itself for the other parts alone.
#[cycle(expr)]
pub enum Expr<'source> {
    /// A name: `user`.
    Var(Spanned<Var<'source>>),
    /// A literal: `42`, `"text"`, `true`, `none`.
    Const(Box<Spanned<Const>>),
    /// A part of a list or a text: `items[1:3]`.
    Slice(Box<Spanned<Slice<'source>>>),
    /// An operator with one operand: `not ready`, `-x`.
    UnaryOp(Box<Spanned<UnaryOp<'source>>>),
    /// An operator with two operands: `a + b`.
    BinOp(Box<Spanned<BinOp<'source>>>),
    /// A chain of comparisons: `0 < x <= 9`.
    Compare(Box<Spanned<Compare<'source>>>),
    /// A choice: `a if ready else b`.
    IfExpr(Box<Spanned<IfExpr<'source>>>),
    /// A filter: `name|upper`.
    Filter(Box<Spanned<Filter<'source>>>),
    /// A test: `x is defined`.
    Test(Box<Spanned<Test<'source>>>),
    /// An attribute: `user.name`.
    GetAttr(Box<Spanned<GetAttr<'source>>>),
    /// An item: `items[0]`.
    GetItem(Box<Spanned<GetItem<'source>>>),
    /// A call: `range(9)`.
    Call(Box<Spanned<Call<'source>>>),
    /// A list: `[1, x]`.
    List(Box<Spanned<List<'source>>>),
    /// A tuple: `(1, x)`.
    Tuple(Box<Spanned<Tuple<'source>>>),
    /// A map: `{"a": x}`.
    Map(Box<Spanned<Map<'source>>>),
}

/// A name.
#[derive(Drop)]
pub struct Var<'source> {
    pub id: &'source str,
}

/// A literal.
#[derive(Drop)]
pub struct Const {
    pub value: Value,
}

/// `expr[start:stop:step]`.
#[cycle(expr)]
#[derive(Drop)]
pub struct Slice<'source> {
    pub expr: Expr<'source>,
    pub start: Option<Expr<'source>>,
    pub stop: Option<Expr<'source>>,
    pub step: Option<Expr<'source>>,
}

/// An operator before its operand.
#[cycle(expr)]
#[derive(Drop)]
pub struct UnaryOp<'source> {
    pub op: UnaryOpKind,
    pub expr: Expr<'source>,
}

/// An operator between its operands. One comparison alone is one; `not in` is `not` of `in`.
#[cycle(expr)]
#[derive(Drop)]
pub struct BinOp<'source> {
    pub op: BinOpKind,
    pub left: Expr<'source>,
    pub right: Expr<'source>,
}

/// Two comparisons or more, one behind the other.
#[cycle(expr)]
#[derive(Drop)]
pub struct Compare<'source> {
    pub expr: Expr<'source>,
    pub ops: Vec<CompareOp<'source>>,
}

/// One comparison of a chain, with its right side.
#[cycle(expr)]
#[derive(Drop)]
pub struct CompareOp<'source> {
    pub op: CompareOpKind,
    pub expr: Expr<'source>,
}

/// `true_expr if test_expr else false_expr`.
#[cycle(expr)]
#[derive(Drop)]
pub struct IfExpr<'source> {
    pub test_expr: Expr<'source>,
    pub true_expr: Expr<'source>,
    pub false_expr: Option<Expr<'source>>,
}

/// `expr|name(args)`. A filter block's first filter has no expression. A name of several parts has
/// dots between them, and no white space.
#[cycle(expr)]
#[derive(Drop)]
pub struct Filter<'source> {
    pub name: CowStr<'source>,
    pub expr: Option<Expr<'source>>,
    pub args: Vec<CallArg<'source>>,
}

/// `expr is name(args)`. A name of several parts has dots between them, and no white space.
#[cycle(expr)]
#[derive(Drop)]
pub struct Test<'source> {
    pub name: CowStr<'source>,
    pub expr: Expr<'source>,
    pub args: Vec<CallArg<'source>>,
}

/// `expr.name`.
#[cycle(expr)]
#[derive(Drop)]
pub struct GetAttr<'source> {
    pub expr: Expr<'source>,
    pub name: &'source str,
}

/// `expr[subscript_expr]`.
#[cycle(expr)]
#[derive(Drop)]
pub struct GetItem<'source> {
    pub expr: Expr<'source>,
    pub subscript_expr: Expr<'source>,
}

/// `[items]`.
#[cycle(expr)]
#[derive(Drop)]
pub struct List<'source> {
    pub items: Vec<Expr<'source>>,
}

/// `(items)`.
#[cycle(expr)]
#[derive(Drop)]
pub struct Tuple<'source> {
    pub items: Vec<Expr<'source>>,
}

/// `{keys: values}`, as many keys as values.
#[cycle(expr)]
#[derive(Drop)]
pub struct Map<'source> {
    pub keys: Vec<Expr<'source>>,
    pub values: Vec<Expr<'source>>,
}

impl<'source> Expr<'source> {
    ghost use Rattle.template_compiler_tree.specs.View.{expression_of};
    ghost use Rattle.template_compiler_tree.specs.Kinds.{description_of};
    ghost use Rattle.template_compiler_tree.specs.Places.{expression_span};

    /// The words for an expression of this kind, as `item lookup`.
    pub fn description(&self) -> &'static str
        ensures { result.now ≡ description_of (expression_of self.now) }
    {
        match self {
            Expr::Var(_) => "variable",
            Expr::Const(_) => "constant",
            Expr::Slice(_) => "slice",
            Expr::UnaryOp(_) => "unary operator",
            Expr::BinOp(_) => "binary operator",
            Expr::Compare(_) => "comparison",
            Expr::IfExpr(_) => "if expression",
            Expr::Filter(_) => "filter expression",
            Expr::Test(_) => "test expression",
            Expr::GetAttr(_) => "attribute lookup",
            Expr::GetItem(_) => "item lookup",
            Expr::Call(_) => "call",
            Expr::List(_) => "list literal",
            Expr::Tuple(_) => "tuple literal",
            Expr::Map(_) => "map literal",
        }
    }

    /// The stretch of the source that the expression was read from.
    pub fn span(&self) -> Span
        ensures { result ≡ expression_span self.now }
    {
        match self {
            Expr::Var(n) => n.span,
            Expr::Const(n) => n.span,
            Expr::Slice(n) => n.span,
            Expr::UnaryOp(n) => n.span,
            Expr::BinOp(n) => n.span,
            Expr::Compare(n) => n.span,
            Expr::IfExpr(n) => n.span,
            Expr::Filter(n) => n.span,
            Expr::Test(n) => n.span,
            Expr::GetAttr(n) => n.span,
            Expr::GetItem(n) => n.span,
            Expr::Call(n) => n.span,
            Expr::List(n) => n.span,
            Expr::Tuple(n) => n.span,
            Expr::Map(n) => n.span,
        }
    }
}

impl<'source> Expr<'source> {
    ghost use Rattle.std.specs.Prelude.{IfSome};
    ghost use Rattle.template_compiler_tree.specs.View.{expression_of};
    ghost use Rattle.template_compiler_tree.specs.Kinds.{call_parts, is_self_name};
    ghost use Rattle.template_compiler_tree.specs.CallView.{call_in, call_places};
    ghost use Rattle.template_compiler_tree.specs.ExpressionPlaces.{places_of};

    /// The call that this expression is, or none where it is another one.
    pub fn into_call(self) -> Option<Box<Spanned<Call<'source>>>>
        ensures call { call_in result ≡ call_parts (expression_of self.entry) }
        ensures places { IfSome result (λ n. call_places n ≡ places_of self.entry) }
    {
        match self {
            Expr::Call(n) => Some(n),
            Expr::Var(_) => None,
            Expr::Const(_) => None,
            Expr::Slice(_) => None,
            Expr::UnaryOp(_) => None,
            Expr::BinOp(_) => None,
            Expr::Compare(_) => None,
            Expr::IfExpr(_) => None,
            Expr::Filter(_) => None,
            Expr::Test(_) => None,
            Expr::GetAttr(_) => None,
            Expr::GetItem(_) => None,
            Expr::List(_) => None,
            Expr::Tuple(_) => None,
            Expr::Map(_) => None,
        }
    }

    // The name `self`.
    pub(crate) fn is_self(&self) -> bool
        ensures { result ≡ is_self_name (expression_of self.now) }
    {
        match self {
            Expr::Var(n) => n.node.id == "self",
            _ => false,
        }
    }
}

impl<'source> Drop for Expr<'source> {
    #[cycle(expr)]
    #[inline(never)]
    fn drop(self) {
        match self {
            Expr::Var(_) => {}
            Expr::Const(_) => {}
            expr => expr.drop_parts(),
        }
    }
}

impl<'source> Expr<'source> {
    ghost use Rattle.std.specs.Prelude.{◌<◌, IfSome};
    ghost use Rattle.template_compiler_tree.specs.declared.expressions.Expr.{size-Expr};

    // Drops an expression that has parts, along its left ones. Most are operators and look-ups.
    #[cycle(expr)]
    #[inline(never)]
    fn drop_parts(mut self) {
        loop {
            match self {
                Expr::Var(_) => return,
                Expr::Const(_) => return,
                Expr::UnaryOp(n) => {
                    let UnaryOp { expr, .. } = Box::into_inner(n).into_node();
                    self = expr;
                }
                Expr::BinOp(n) => {
                    let BinOp { left, .. } = Box::into_inner(n).into_node();
                    self = left;
                }
                Expr::GetAttr(n) => {
                    let GetAttr { expr, .. } = Box::into_inner(n).into_node();
                    self = expr;
                }
                Expr::GetItem(n) => {
                    let GetItem { expr, .. } = Box::into_inner(n).into_node();
                    self = expr;
                }
                expr => match expr.into_first_part() {
                    Some(first) => self = first,
                    None => return,
                },
            }
        }
    }

    // The expression on the left of one of another kind; its other parts are dropped.
    #[cycle(expr)]
    #[inline(never)]
    fn into_first_part(self) -> Option<Expr<'source>>
        ensures { IfSome result (λ e. size-Expr e < size-Expr self.entry) }
    {
        match self {
            Expr::Slice(n) => {
                let Slice { expr, .. } = Box::into_inner(n).into_node();
                Some(expr)
            }
            Expr::Compare(n) => {
                let Compare { expr, .. } = Box::into_inner(n).into_node();
                Some(expr)
            }
            Expr::IfExpr(n) => {
                let IfExpr { true_expr, .. } = Box::into_inner(n).into_node();
                Some(true_expr)
            }
            Expr::Filter(n) => {
                let Filter { expr, .. } = Box::into_inner(n).into_node();
                expr
            }
            Expr::Test(n) => {
                let Test { expr, .. } = Box::into_inner(n).into_node();
                Some(expr)
            }
            Expr::Call(n) => {
                let Call { expr, .. } = Box::into_inner(n).into_node();
                Some(expr)
            }
            Expr::Var(_) => None,
            Expr::Const(_) => None,
            Expr::UnaryOp(_) => None,
            Expr::BinOp(_) => None,
            Expr::GetAttr(_) => None,
            Expr::GetItem(_) => None,
            Expr::List(_) => None,
            Expr::Tuple(_) => None,
            Expr::Map(_) => None,
        }
    }
}
