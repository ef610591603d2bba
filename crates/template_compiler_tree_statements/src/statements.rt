//! Statements.
ghost use Rattle.std.specs.Prelude.{◌≡◌};

use template_compiler_tree::{Call, Expr, Span, Spanned};

/// A statement. A chain of `elif` may be as long as the source, other bodies nest at most 150 deep: what
/// goes over a tree goes along such a chain in a loop, and calls itself for bodies alone.
#[cycle(stmt)]
pub enum Stmt<'source> {
    /// A whole template.
    Template(Spanned<Template<'source>>),
    /// `{{ expr }}`: the value of an expression is printed.
    EmitExpr(Spanned<EmitExpr<'source>>),
    /// A text of the template is written as it stands.
    EmitRaw(Spanned<EmitRaw<'source>>),
    /// `{% for .. %}`.
    ForLoop(Box<Spanned<ForLoop<'source>>>),
    /// `{% if .. %}` and `{% elif .. %}`.
    IfCond(Box<Spanned<IfCond<'source>>>),
    /// `{% with .. %}`.
    WithBlock(Box<Spanned<WithBlock<'source>>>),
    /// `{% set target = expr %}`.
    Set(Box<Spanned<Set<'source>>>),
    /// `{% set target %}..{% endset %}`.
    SetBlock(Box<Spanned<SetBlock<'source>>>),
    /// `{% autoescape .. %}`.
    AutoEscape(Box<Spanned<AutoEscape<'source>>>),
    /// `{% filter .. %}`.
    FilterBlock(Box<Spanned<FilterBlock<'source>>>),
    /// `{% block .. %}`.
    Block(Box<Spanned<Block<'source>>>),
    /// `{% import .. as .. %}`.
    Import(Box<Spanned<Import<'source>>>),
    /// `{% from .. import .. %}`.
    FromImport(Box<Spanned<FromImport<'source>>>),
    /// `{% extends .. %}`.
    Extends(Box<Spanned<Extends<'source>>>),
    /// `{% include .. %}`.
    Include(Box<Spanned<Include<'source>>>),
    /// `{% macro .. %}`.
    Macro(Box<Spanned<Macro<'source>>>),
    /// `{% call .. %}`.
    CallBlock(Box<Spanned<CallBlock<'source>>>),
    /// `{% continue %}`.
    Continue(Spanned<Continue>),
    /// `{% break %}`.
    Break(Spanned<Break>),
    /// `{% do .. %}`.
    Do(Spanned<Do<'source>>),
}

/// A whole template: its statements in order.
#[cycle(stmt)]
#[derive(Drop)]
pub struct Template<'source> {
    pub children: Vec<Stmt<'source>>,
}

/// `{{ expr }}`.
#[derive(Drop)]
pub struct EmitExpr<'source> {
    pub expr: Expr<'source>,
}

/// A text between the other segments.
#[derive(Drop)]
pub struct EmitRaw<'source> {
    pub raw: &'source str,
}

/// `{% for target in iter if filter_expr recursive %}body{% else %}else_body{% endfor %}`.
#[cycle(stmt)]
#[derive(Drop)]
pub struct ForLoop<'source> {
    pub target: Expr<'source>,
    pub iter: Expr<'source>,
    pub filter_expr: Option<Expr<'source>>,
    pub recursive: bool,
    pub body: Vec<Stmt<'source>>,
    pub else_body: Vec<Stmt<'source>>,
}

/// `{% if expr %}true_body{% else %}false_body{% endif %}`. An `elif` is the one statement of the
/// `false_body`.
#[cycle(stmt)]
#[derive(Drop)]
pub struct IfCond<'source> {
    pub expr: Expr<'source>,
    pub true_body: Vec<Stmt<'source>>,
    pub false_body: Vec<Stmt<'source>>,
}

/// `{% with target = value, .. %}body{% endwith %}`.
#[cycle(stmt)]
#[derive(Drop)]
pub struct WithBlock<'source> {
    /// Targets with their values.
    pub assignments: Vec<(Expr<'source>, Expr<'source>)>,
    pub body: Vec<Stmt<'source>>,
}

/// `{% set target = expr %}`.
#[derive(Drop)]
pub struct Set<'source> {
    pub target: Expr<'source>,
    pub expr: Expr<'source>,
}

/// `{% set target filter %}body{% endset %}`.
#[cycle(stmt)]
#[derive(Drop)]
pub struct SetBlock<'source> {
    pub target: Expr<'source>,
    /// The last filter; the first one has no expression.
    pub filter: Option<Expr<'source>>,
    pub body: Vec<Stmt<'source>>,
}

/// `{% autoescape enabled %}body{% endautoescape %}`.
#[cycle(stmt)]
#[derive(Drop)]
pub struct AutoEscape<'source> {
    pub enabled: Expr<'source>,
    pub body: Vec<Stmt<'source>>,
}

/// `{% filter filter %}body{% endfilter %}`.
#[cycle(stmt)]
#[derive(Drop)]
pub struct FilterBlock<'source> {
    /// The last filter; the first one has no expression.
    pub filter: Expr<'source>,
    pub body: Vec<Stmt<'source>>,
}

/// `{% block name required %}body{% endblock %}`.
#[cycle(stmt)]
#[derive(Drop)]
pub struct Block<'source> {
    pub name: &'source str,
    pub required: bool,
    pub body: Vec<Stmt<'source>>,
}

/// `{% import expr as name %}`.
#[derive(Drop)]
pub struct Import<'source> {
    pub expr: Expr<'source>,
    pub name: Expr<'source>,
}

/// `{% from expr import name as alias, .. %}`.
#[derive(Drop)]
pub struct FromImport<'source> {
    pub expr: Expr<'source>,
    /// Names, with their aliases.
    pub names: Vec<(Expr<'source>, Option<Expr<'source>>)>,
}

/// `{% extends name %}`.
#[derive(Drop)]
pub struct Extends<'source> {
    pub name: Expr<'source>,
}

/// `{% include name ignore missing %}`.
#[derive(Drop)]
pub struct Include<'source> {
    pub name: Expr<'source>,
    pub ignore_missing: bool,
}

/// `{% macro name(args) %}body{% endmacro %}`. The defaults are those of the last arguments.
#[cycle(stmt)]
#[derive(Drop)]
pub struct Macro<'source> {
    pub name: &'source str,
    pub args: Vec<Expr<'source>>,
    pub defaults: Vec<Expr<'source>>,
    pub body: Vec<Stmt<'source>>,
}

/// `{% call(args) call %}body{% endcall %}`: the body is the macro `caller`.
#[cycle(stmt)]
#[derive(Drop)]
pub struct CallBlock<'source> {
    pub call: Box<Spanned<Call<'source>>>,
    pub macro_decl: Box<Spanned<Macro<'source>>>,
}

/// `{% continue %}`.
#[derive(Clone, Copy, Debug, PartialEq, Eq)]
pub struct Continue;

/// `{% break %}`.
#[derive(Clone, Copy, Debug, PartialEq, Eq)]
pub struct Break;

/// `{% do call %}`.
#[derive(Drop)]
pub struct Do<'source> {
    pub call: Box<Spanned<Call<'source>>>,
}

impl<'source> Stmt<'source> {
    ghost use Rattle.template_compiler_tree_statements.specs.Places.{statement_span};

    /// The stretch of the source that the statement was read from.
    pub fn span(&self) -> Span
        ensures { result ≡ statement_span self.now }
    {
        match self {
            Stmt::Template(n) => n.span,
            Stmt::EmitExpr(n) => n.span,
            Stmt::EmitRaw(n) => n.span,
            Stmt::ForLoop(n) => n.span,
            Stmt::IfCond(n) => n.span,
            Stmt::WithBlock(n) => n.span,
            Stmt::Set(n) => n.span,
            Stmt::SetBlock(n) => n.span,
            Stmt::AutoEscape(n) => n.span,
            Stmt::FilterBlock(n) => n.span,
            Stmt::Block(n) => n.span,
            Stmt::Import(n) => n.span,
            Stmt::FromImport(n) => n.span,
            Stmt::Extends(n) => n.span,
            Stmt::Include(n) => n.span,
            Stmt::Macro(n) => n.span,
            Stmt::CallBlock(n) => n.span,
            Stmt::Continue(n) => n.span,
            Stmt::Break(n) => n.span,
            Stmt::Do(n) => n.span,
        }
    }
}

impl<'source> Drop for Stmt<'source> {
    #[cycle(stmt)]
    #[inline(always)]
    fn drop(self) {
        match self {
            Stmt::EmitRaw(_) => {}
            Stmt::EmitExpr(_) => {}
            statement => statement.drop_bodies(),
        }
    }
}

impl<'source> Stmt<'source> {
    ghost use Rattle.std.specs.Prelude.{◌<◌, ◌≤◌, IfSome};
    ghost use Rattle.template_compiler_tree_statements.specs.declared.statements.Stmt.{IfCond as condition, size-Stmt};

    // Drops a statement that is no text and no value that is printed.
    #[cycle(stmt)]
    #[inline(never)]
    fn drop_bodies(self) {
        let mut next = self.into_condition();
        while let Some(condition) = next {
            next = Stmt::following(condition);
        }
    }

    // The condition that this statement is; another one is dropped. Most are texts.
    #[cycle(stmt)]
    #[inline(always)]
    fn into_condition(self) -> Option<Box<Spanned<IfCond<'source>>>>
        ensures { IfSome result (λ n. size-Stmt (condition n) ≤ size-Stmt self.entry) }
    {
        match self {
            Stmt::IfCond(n) => Some(n),
            Stmt::EmitRaw(_) => None,
            Stmt::EmitExpr(_) => None,
            Stmt::Template(_) => None,
            Stmt::ForLoop(_) => None,
            Stmt::WithBlock(_) => None,
            Stmt::Set(_) => None,
            Stmt::SetBlock(_) => None,
            Stmt::AutoEscape(_) => None,
            Stmt::FilterBlock(_) => None,
            Stmt::Block(_) => None,
            Stmt::Import(_) => None,
            Stmt::FromImport(_) => None,
            Stmt::Extends(_) => None,
            Stmt::Include(_) => None,
            Stmt::Macro(_) => None,
            Stmt::CallBlock(_) => None,
            Stmt::Continue(_) => None,
            Stmt::Break(_) => None,
            Stmt::Do(_) => None,
        }
    }

    // The condition that ends the `false_body` of this one, such as an `elif`; all else that stands here is dropped.
    #[cycle(stmt)]
    fn following(node: Box<Spanned<IfCond<'source>>>) -> Option<Box<Spanned<IfCond<'source>>>>
        ensures { IfSome result (λ n. size-Stmt (condition n) < size-Stmt (condition node.entry)) }
    {
        let IfCond { mut false_body, .. } = Box::into_inner(node).into_node();
        false_body.pop()?.into_condition()
    }
}
