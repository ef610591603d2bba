//! Calls and their arguments.
ghost use Rattle.std.specs.Prelude.{◌≡◌};

use crate::expressions::Expr;

/// `expr(args)`.
#[cycle(expr)]
#[derive(Drop)]
pub struct Call<'source> {
    pub expr: Expr<'source>,
    pub args: Vec<CallArg<'source>>,
}

/// An argument of a call, a filter or a test.
#[cycle(expr)]
#[derive(Drop)]
pub enum CallArg<'source> {
    /// A value: `x`.
    Pos(Expr<'source>),
    /// A value by name: `name=x`.
    Kwarg(&'source str, Expr<'source>),
    /// The items of a list, one after the other: `*xs`.
    PosSplat(Expr<'source>),
    /// The pairs of a map, by name: `**xs`.
    KwargSplat(Expr<'source>),
}

/// What a call calls.
#[derive(Clone, Copy)]
pub enum CallType<'ast, 'source> {
    /// What a name stands for: `name(..)`.
    Function(&'source str),
    /// A method of a value: `expr.name(..)`.
    Method(&'ast Expr<'source>, &'source str),
    /// A block of the template: `self.name()`.
    Block(&'source str),
    /// A value: `expr(..)`.
    Object(&'ast Expr<'source>),
}

impl<'source> Call<'source> {
    ghost use Rattle.template_compiler_tree.specs.View.{expression_of, arguments_in};
    ghost use Rattle.template_compiler_tree.specs.Kinds.{called_by, called_attribute};
    ghost use Rattle.template_compiler_tree.specs.CallView.{called};

    /// What the call calls: by a name, a method, a block or a value.
    pub fn identify_call<'ast>(&'ast self) -> CallType<'ast, 'source>
        ensures { called result ≡ called_by (expression_of self.now.expr) (arguments_in self.now.args.items) }
    {
        match &self.expr {
            Expr::Var(n) => CallType::Function(n.node.id),
            Expr::GetAttr(n) => self.identify_attribute(&n.node.expr, n.node.name),
            expr => CallType::Object(expr),
        }
    }

    // An attribute of `self` that is called without arguments is a block.
    fn identify_attribute<'ast>(
        &self,
        object: &'ast Expr<'source>,
        name: &'source str,
    ) -> CallType<'ast, 'source>
        ensures { called result ≡ called_attribute (expression_of object.now) name.now (arguments_in self.now.args.items) }
    {
        if object.is_self() && self.args.as_slice().is_empty() {
            CallType::Block(name)
        } else {
            CallType::Method(object, name)
        }
    }
}
