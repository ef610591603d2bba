//! Makers of nodes: each takes one allocation at most, and drops its parts where that is refused.
ghost use Rattle.std.specs.Prelude.{◌≡◌, IfOk};
ghost use Rattle.std.specs.Cow.{cow_str_bytes};
ghost use Rattle.template_compiler_tree.specs.ExpressionPlaces.{places_of, places_optional, places_in, places_in_links, places_in_arguments};
ghost use Rattle.template_compiler_tree.specs.NodePlaces.{at, no_parts, parts_more, one, and_parts};
ghost use Rattle.template_compiler_tree.specs.Places.{expression_span};
ghost use Rattle.template_compiler_tree.specs.Tree.{variable, constant, slice, unary, binary, chain, conditional, filtered, tested, attribute, item, call, list_literal, tuple_literal, map_literal};
ghost use Rattle.template_compiler_tree.specs.View.{expression_of, optional_in, expressions_in, links_in, arguments_in};

use crate::calls::{Call, CallArg};
use crate::expressions::{
    BinOp, Compare, CompareOp, Const, Expr, Filter, GetAttr, GetItem, IfExpr, List, Map, Slice,
    Test, Tuple, UnaryOp, Var,
};
use crate::operators::{BinOpKind, UnaryOpKind};
use crate::span::{Span, Spanned};
use std::alloc::{AllocError, Global};
use std::borrow::CowStr;
use template_values_core::Value;

impl<'source> Expr<'source> {
    /// A name.
    pub fn variable(id: &'source str, span: Span) -> Expr<'source>
        ensures tree { expression_of result ≡ variable id.now }
        ensures span { expression_span result ≡ span }
        ensures places { places_of result ≡ at span no_parts }
    {
        Expr::Var(Spanned::new(Var { id }, span))
    }

    /// A literal.
    #[inline(always)]
    pub fn constant(alloc: Global, value: Value, span: Span) -> Result<Expr<'source>, AllocError>
        ensures tree { IfOk result (λ e. expression_of e ≡ constant value) }
        ensures span { IfOk result (λ e. expression_span e ≡ span) }
        ensures places { IfOk result (λ e. places_of e ≡ at span no_parts) }
    {
        Ok(Expr::Const(Spanned::boxed(alloc, Const { value }, span)?))
    }

    /// `expr[start:stop:step]`.
    pub fn slice(
        alloc: Global,
        expr: Expr<'source>,
        start: Option<Expr<'source>>,
        stop: Option<Expr<'source>>,
        step: Option<Expr<'source>>,
        span: Span,
    ) -> Result<Expr<'source>, AllocError>
        ensures tree { IfOk result
            (λ e. expression_of e ≡ slice (expression_of expr.entry)
            (optional_in start.entry) (optional_in stop.entry) (optional_in step.entry)) }
        ensures span { IfOk result (λ e. expression_span e ≡ span) }
        ensures places { IfOk result (λ e. places_of e ≡ at span (parts_more (places_of expr.entry)
            (and_parts (places_optional start.entry) (and_parts (places_optional stop.entry) (places_optional step.entry))))) }
    {
        let node = Spanned::boxed(
            alloc,
            Slice {
                expr,
                start,
                stop,
                step,
            },
            span,
        )?;
        Ok(Expr::Slice(node))
    }

    /// An operator before its operand.
    pub fn unary(
        alloc: Global,
        op: UnaryOpKind,
        expr: Expr<'source>,
        span: Span,
    ) -> Result<Expr<'source>, AllocError>
        ensures tree { IfOk result (λ e. expression_of e ≡ unary op (expression_of expr.entry)) }
        ensures span { IfOk result (λ e. expression_span e ≡ span) }
        ensures places { IfOk result (λ e. places_of e ≡ at span (one (places_of expr.entry))) }
    {
        let node = Spanned::boxed(alloc, UnaryOp { op, expr }, span)?;
        Ok(Expr::UnaryOp(node))
    }

    /// An operator between its operands.
    pub fn binary(
        alloc: Global,
        op: BinOpKind,
        left: Expr<'source>,
        right: Expr<'source>,
        span: Span,
    ) -> Result<Expr<'source>, AllocError>
        ensures tree { IfOk result (λ e. expression_of e ≡ binary op (expression_of left.entry) (expression_of right.entry)) }
        ensures span { IfOk result (λ e. expression_span e ≡ span) }
        ensures places { IfOk result (λ e. places_of e ≡ at span (parts_more (places_of left.entry) (one (places_of right.entry)))) }
    {
        let node = Spanned::boxed(alloc, BinOp { op, left, right }, span)?;
        Ok(Expr::BinOp(node))
    }

    /// Comparisons, one behind the other.
    pub fn chain(
        alloc: Global,
        expr: Expr<'source>,
        ops: Vec<CompareOp<'source>>,
        span: Span,
    ) -> Result<Expr<'source>, AllocError>
        ensures tree { IfOk result (λ e. expression_of e ≡ chain (expression_of expr.entry) (links_in ops.entry.items)) }
        ensures span { IfOk result (λ e. expression_span e ≡ span) }
        ensures places { IfOk result (λ e. places_of e ≡ at span (parts_more (places_of expr.entry) (places_in_links ops.entry.items))) }
    {
        let node = Spanned::boxed(alloc, Compare { expr, ops }, span)?;
        Ok(Expr::Compare(node))
    }

    /// `true_expr if test_expr else false_expr`.
    pub fn conditional(
        alloc: Global,
        test_expr: Expr<'source>,
        true_expr: Expr<'source>,
        false_expr: Option<Expr<'source>>,
        span: Span,
    ) -> Result<Expr<'source>, AllocError>
        ensures tree { IfOk result
            (λ e. expression_of e ≡ conditional (expression_of test_expr.entry)
            (expression_of true_expr.entry) (optional_in false_expr.entry)) }
        ensures span { IfOk result (λ e. expression_span e ≡ span) }
        ensures places { IfOk result (λ e. places_of e ≡ at span (parts_more (places_of test_expr.entry)
            (parts_more (places_of true_expr.entry) (places_optional false_expr.entry)))) }
    {
        let node = Spanned::boxed(
            alloc,
            IfExpr {
                test_expr,
                true_expr,
                false_expr,
            },
            span,
        )?;
        Ok(Expr::IfExpr(node))
    }

    /// `expr|name(args)`.
    pub fn filtered(
        alloc: Global,
        name: CowStr<'source>,
        expr: Option<Expr<'source>>,
        args: Vec<CallArg<'source>>,
        span: Span,
    ) -> Result<Expr<'source>, AllocError>
        ensures tree { IfOk result
            (λ e. expression_of e ≡ filtered (cow_str_bytes name.entry) (optional_in expr.entry) (arguments_in args.entry.items)) }
        ensures span { IfOk result (λ e. expression_span e ≡ span) }
        ensures places { IfOk result
            (λ e. places_of e ≡ at span (and_parts (places_optional expr.entry) (places_in_arguments args.entry.items))) }
    {
        let node = Spanned::boxed(alloc, Filter { name, expr, args }, span)?;
        Ok(Expr::Filter(node))
    }

    /// `expr is name(args)`.
    pub fn tested(
        alloc: Global,
        name: CowStr<'source>,
        expr: Expr<'source>,
        args: Vec<CallArg<'source>>,
        span: Span,
    ) -> Result<Expr<'source>, AllocError>
        ensures tree { IfOk result
            (λ e. expression_of e ≡ tested (cow_str_bytes name.entry) (expression_of expr.entry) (arguments_in args.entry.items)) }
        ensures span { IfOk result (λ e. expression_span e ≡ span) }
        ensures places { IfOk result (λ e. places_of e ≡ at span (parts_more (places_of expr.entry) (places_in_arguments args.entry.items))) }
    {
        let node = Spanned::boxed(alloc, Test { name, expr, args }, span)?;
        Ok(Expr::Test(node))
    }

    /// `expr.name`.
    pub fn attribute(
        alloc: Global,
        expr: Expr<'source>,
        name: &'source str,
        span: Span,
    ) -> Result<Expr<'source>, AllocError>
        ensures tree { IfOk result (λ e. expression_of e ≡ attribute (expression_of expr.entry) name.now) }
        ensures span { IfOk result (λ e. expression_span e ≡ span) }
        ensures places { IfOk result (λ e. places_of e ≡ at span (one (places_of expr.entry))) }
    {
        let node = Spanned::boxed(alloc, GetAttr { expr, name }, span)?;
        Ok(Expr::GetAttr(node))
    }

    /// `expr[subscript_expr]`.
    pub fn item(
        alloc: Global,
        expr: Expr<'source>,
        subscript_expr: Expr<'source>,
        span: Span,
    ) -> Result<Expr<'source>, AllocError>
        ensures tree { IfOk result (λ e. expression_of e ≡ item (expression_of expr.entry) (expression_of subscript_expr.entry)) }
        ensures span { IfOk result (λ e. expression_span e ≡ span) }
        ensures places { IfOk result (λ e. places_of e ≡ at span (parts_more (places_of expr.entry) (one (places_of subscript_expr.entry)))) }
    {
        let node = Spanned::boxed(
            alloc,
            GetItem {
                expr,
                subscript_expr,
            },
            span,
        )?;
        Ok(Expr::GetItem(node))
    }

    /// `expr(args)`.
    pub fn call(
        alloc: Global,
        expr: Expr<'source>,
        args: Vec<CallArg<'source>>,
        span: Span,
    ) -> Result<Expr<'source>, AllocError>
        ensures tree { IfOk result (λ e. expression_of e ≡ call (expression_of expr.entry) (arguments_in args.entry.items)) }
        ensures span { IfOk result (λ e. expression_span e ≡ span) }
        ensures places { IfOk result (λ e. places_of e ≡ at span (parts_more (places_of expr.entry) (places_in_arguments args.entry.items))) }
    {
        let node = Spanned::boxed(alloc, Call { expr, args }, span)?;
        Ok(Expr::Call(node))
    }

    /// `[items]`.
    pub fn list(
        alloc: Global,
        items: Vec<Expr<'source>>,
        span: Span,
    ) -> Result<Expr<'source>, AllocError>
        ensures tree { IfOk result (λ e. expression_of e ≡ list_literal (expressions_in items.entry.items)) }
        ensures span { IfOk result (λ e. expression_span e ≡ span) }
        ensures places { IfOk result (λ e. places_of e ≡ at span (places_in items.entry.items)) }
    {
        let node = Spanned::boxed(alloc, List { items }, span)?;
        Ok(Expr::List(node))
    }

    /// `(items)`.
    pub fn tuple(
        alloc: Global,
        items: Vec<Expr<'source>>,
        span: Span,
    ) -> Result<Expr<'source>, AllocError>
        ensures tree { IfOk result (λ e. expression_of e ≡ tuple_literal (expressions_in items.entry.items)) }
        ensures span { IfOk result (λ e. expression_span e ≡ span) }
        ensures places { IfOk result (λ e. places_of e ≡ at span (places_in items.entry.items)) }
    {
        let node = Spanned::boxed(alloc, Tuple { items }, span)?;
        Ok(Expr::Tuple(node))
    }

    /// `{keys: values}`.
    pub fn map(
        alloc: Global,
        keys: Vec<Expr<'source>>,
        values: Vec<Expr<'source>>,
        span: Span,
    ) -> Result<Expr<'source>, AllocError>
        ensures tree { IfOk result
            (λ e. expression_of e ≡ map_literal (expressions_in keys.entry.items) (expressions_in values.entry.items)) }
        ensures span { IfOk result (λ e. expression_span e ≡ span) }
        ensures places { IfOk result (λ e. places_of e ≡ at span (and_parts (places_in keys.entry.items) (places_in values.entry.items))) }
    {
        let node = Spanned::boxed(alloc, Map { keys, values }, span)?;
        Ok(Expr::Map(node))
    }
}
