//! The code of trees. A source of fewer than 2^32 bytes is not too large: where its code would have 2^32 instructions, or where
//! the comparisons of a constant chain, which are put and dropped again, would make as many, a growth is refused.
ghost use Rattle.std.specs.Prelude.{false, IfErr, OnOk};
ghost use Rattle.template_values_errors.specs.Memory.{NoMemory};
ghost use Rattle.template_compiler_tree.specs.View.{expression_of};
ghost use Rattle.template_compiler_tree_statements.specs.View.{statement_of};
ghost use Rattle.template_compiler_tree_parts.specs.Listed.{statements_in};
ghost use Rattle.template_compiler_walk.specs.Runnable.{IsRunnable, AreRunnableStatements};
ghost use Rattle.template_compiler_codegen.specs.Expressions.{expression_code};
ghost use Rattle.template_compiler_codegen.specs.Statements.{no_ways, statements_code};
ghost use Rattle.template_compiler_emission.specs.Puts.{Puts};
ghost use Rattle.template_compiler_statement_codegen.specs.Listed.{IsRunnableTree, body_in};

use std::alloc::Global;
use template_compiler_code::Instructions;
use template_compiler_statement_codegen::{compile_expr, compile_statements, compile_template};
use template_compiler_tree::Expr;
use template_compiler_tree_statements::Stmt;
use template_values_errors::{Error, ErrorKind};

// Puts the code of a template behind the instructions.
pub(crate) fn put_template<'source>(
    alloc: Global,
    code: &mut Instructions<'source>,
    tree: &Stmt<'source>,
) -> Result<(), Error>
    requires { IsRunnableTree (statement_of tree.now) }
    ensures put { OnOk result (Puts (statements_code no_ways (body_in (statement_of tree.now))) code.old code.new) }
    ensures refused { IfErr result NoMemory }
{
    match compile_template(alloc, code, tree) {
        Ok(()) => Ok(()),
        Err(_full) => Err(Error::new(ErrorKind::OutOfMemory)),
    }
}

// The same of the body of a block.
pub(crate) fn put_body<'source>(
    alloc: Global,
    code: &mut Instructions<'source>,
    body: &[Stmt<'source>],
) -> Result<(), Error>
    requires { AreRunnableStatements false (statements_in body.now) }
    ensures put { OnOk result (Puts (statements_code no_ways (statements_in body.now)) code.old code.new) }
    ensures refused { IfErr result NoMemory }
{
    match compile_statements(alloc, code, body) {
        Ok(()) => Ok(()),
        Err(_full) => Err(Error::new(ErrorKind::OutOfMemory)),
    }
}

// The same of an expression.
pub(crate) fn put_expr<'source>(
    alloc: Global,
    code: &mut Instructions<'source>,
    expr: &Expr<'source>,
) -> Result<(), Error>
    requires { IsRunnable (expression_of expr.now) }
    ensures put { OnOk result (Puts (expression_code (expression_of expr.now)) code.old code.new) }
    ensures refused { IfErr result NoMemory }
{
    match compile_expr(alloc, code, expr) {
        Ok(()) => Ok(()),
        Err(_full) => Err(Error::new(ErrorKind::OutOfMemory)),
    }
}
