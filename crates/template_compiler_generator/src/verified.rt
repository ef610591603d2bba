//! What is generated for a tree is accepted by the check of streams.

ghost use Rattle.std.specs.Prelude.{◌≡◌, IfOk, IfErr};
ghost use Rattle.template_compiler_code.specs.Listing.{code_in, name_in, source_in};
ghost use Rattle.template_compiler_code_shapes.specs.Checked.{kind_in, stream_in};
ghost use Rattle.template_compiler_code_shapes.specs.Streams.{IsGood};
ghost use Rattle.template_compiler_code_shapes.specs.declared.StreamKind.{StreamKind};
ghost use Rattle.template_compiler_codegen.specs.Statements.{standalone_code, template_code};
ghost use Rattle.template_compiler_generator.specs.Numbers.{numbered_in};
ghost use Rattle.template_compiler_generator.specs.Acceptance.{ExpressionsAreAccepted, TemplatesAreAccepted};
ghost use Rattle.template_compiler_generator.specs.Alone.{CanStand, statements_of};
ghost use Rattle.template_compiler_tree_statements.specs.View.{statement_of};
ghost use Rattle.template_compiler_tree.specs.View.{expression_of};
ghost use Rattle.template_values_errors.specs.Memory.{NoMemory};
ghost use Rattle.template_compiler_walk.specs.Runnable.{IsRunnable};

use crate::{CodeGenerator, expressions_are_certified, templates_are_certified};
use std::alloc::Global;
use template_compiler_code::Instructions;
use template_compiler_code_shapes::{Checked, StreamKind, certified_is_good, verify};
use template_compiler_tree::Expr;
use template_compiler_tree_statements::Stmt;
use template_values_errors::{Error, ErrorKind};

/// Whatever draft is generated for a template, onto one without code, is a good stream of a template with its numbers. The
/// function does nothing: it stands for the law in its contract.
pub fn templates_are_accepted()
    ensures { TemplatesAreAccepted }
{
    templates_are_certified();
    certified_is_good();
}

/// The same of an expression that stands alone.
pub fn expressions_are_accepted()
    ensures { ExpressionsAreAccepted }
{
    expressions_are_certified();
    certified_is_good();
}

// What is good of either kind is accepted, unless no memory is left.
fn accepted<'source>(
    alloc: Global,
    instructions: Instructions<'source>,
) -> Result<Checked<'source>, Error>
    requires { (kind : StreamKind) × IsGood kind (code_in instructions) }
    ensures stream { IfOk result (λ checked. stream_in checked ≡ instructions.entry) }
    ensures first { IfOk result (λ checked.
        IsGood StreamKind.Template (code_in instructions.entry) → kind_in checked ≡ StreamKind.Template) }
    ensures refused { IfErr result NoMemory }
{
    match verify(alloc, instructions) {
        Ok(checked) => Ok(checked),
        Err((error, _instructions)) => Err(error),
    }
}

/// Generates the instructions of a template with a name and its source, or of a statement of it, and has them checked. They are
/// accepted, as a template's: never is `BadStream` told. The tree is one that [`CodeGenerator::compile_stmt`] takes.
///
/// # Errors
///
/// [`ErrorKind::OutOfMemory`], also where the code would have 2^32 instructions.
pub fn verified_template<'source>(
    alloc: Global,
    file: &'source str,
    source: &'source str,
    tree: &Stmt<'source>,
) -> Result<Checked<'source>, Error>
    requires { CanStand (statement_of tree.now) }
    ensures code { IfOk result (λ checked. code_in (stream_in checked)
        ≡ numbered_in (template_code (statements_of (statement_of tree.now)))) }
    ensures kind { IfOk result (λ checked. kind_in checked ≡ StreamKind.Template) }
    ensures file { IfOk result (λ checked. name_in (stream_in checked) ≡ file.now) }
    ensures source { IfOk result (λ checked. source_in (stream_in checked) ≡ source.now) }
    ensures refused { IfErr result NoMemory }
{
    templates_are_accepted();
    let mut generator = CodeGenerator::new(alloc, file, source);
    match generator.compile_stmt(tree) {
        Ok(()) => {}
        Err(_full) => return Err(Error::new(ErrorKind::OutOfMemory)),
    }
    let instructions = generator.finish()?;
    accepted(alloc, instructions)
}

/// The same of an expression that stands alone, one that [`CodeGenerator::compile_expr`] takes.
///
/// # Errors
///
/// [`ErrorKind::OutOfMemory`], also where the code would have 2^32 instructions.
pub fn verified_expression<'source>(
    alloc: Global,
    file: &'source str,
    source: &'source str,
    expr: &Expr<'source>,
) -> Result<Checked<'source>, Error>
    requires { IsRunnable (expression_of expr.now) }
    ensures code { IfOk result (λ checked. code_in (stream_in checked) ≡ numbered_in (standalone_code (expression_of expr.now))) }
    ensures file { IfOk result (λ checked. name_in (stream_in checked) ≡ file.now) }
    ensures source { IfOk result (λ checked. source_in (stream_in checked) ≡ source.now) }
    ensures refused { IfErr result NoMemory }
{
    expressions_are_accepted();
    let mut generator = CodeGenerator::new(alloc, file, source);
    match generator.compile_expr(expr) {
        Ok(()) => {}
        Err(_full) => return Err(Error::new(ErrorKind::OutOfMemory)),
    }
    let instructions = generator.finish()?;
    accepted(alloc, instructions)
}
