//! The code of trees, as it is generated and checked in one.
ghost use Rattle.std.specs.Prelude.{IfOk};
ghost use Rattle.template_compiler_tree.specs.View.{expression_of};
ghost use Rattle.template_compiler_tree_statements.specs.View.{statement_of};
ghost use Rattle.template_compiler_walk.specs.Runnable.{IsRunnable};
ghost use Rattle.template_compiler_generator.specs.Alone.{CanStand};

use crate::NAME;
use crate::code::write_instructions;
use crate::report::Report;
use std::alloc::Global;
use template_compiler_code_shapes::Checked;
use template_compiler_generator::{verified_expression, verified_template};
use template_compiler_sources::parse_expr;
use template_compiler_tree::Expr;
use template_compiler_tree_statements::Stmt;
use template_values_errors::Error;

/// What kind of stream the code of a template is, and its instructions.
pub(crate) fn checked_template(alloc: Global, tree: &Stmt<'_>, out: &mut Report)
    requires { CanStand (statement_of tree.now) }
{
    write_checked(&verified_template(alloc, NAME, "", tree), out)
}

/// The same of an expression that stands alone.
pub(crate) fn checked_expression(alloc: Global, source: &str, out: &mut Report) {
    let read = parse_expr(alloc, source);
    checked_read(alloc, &read, out)
}

fn checked_read(alloc: Global, read: &Result<Expr<'_>, Error>, out: &mut Report)
    requires { IfOk read.now (λ expr. IsRunnable (expression_of expr)) }
{
    match read {
        Ok(expr) => write_checked(&verified_expression(alloc, NAME, "", expr), out),
        Err(error) => out.refuse(error.kind()),
    }
}

fn write_checked(stream: &Result<Checked<'_>, Error>, out: &mut Report) {
    match stream {
        Ok(checked) => {
            out.tell("(", &checked.kind());
            write_instructions(checked.instructions(), out);
            out.push(')')
        }
        Err(error) => out.refuse(error.kind()),
    }
}
