//! Templates that are imported: as a module, or some of their names.
ghost use Rattle.std.specs.Prelude.{◌≡◌, OnOk, IfErr};
ghost use Rattle.template_compiler_tree.specs.View.{expression_of, optional_in};
ghost use Rattle.template_compiler_tree_statements.specs.View.{imports_in};
ghost use Rattle.template_compiler_walk.specs.Runnable.{IsRunnable, IsTarget, AreImports};
ghost use Rattle.template_compiler_walk.specs.Statements.{imported_names, stored_as};
ghost use Rattle.template_compiler_code.specs.Listing.{code_in};
ghost use Rattle.template_compiler_codegen.specs.Expressions.{expressions_code};
ghost use Rattle.template_compiler_emission.specs.Puts.{Puts};
ghost use Rattle.template_compiler_statement_codegen.specs.Imports.{apart_code, import_code, from_import_code, stores_code};
ghost use Rattle.template_compiler_statement_codegen.specs.Refusals.{Refuses};

use crate::puts::{compile_expr, put};
use crate::targets::store;
use std::alloc::Global;
use template_compiler_code::{CaptureMode, Instruction, Instructions};
use template_compiler_tree::{Expr, Span};
use template_compiler_tree_statements::FromImport;
use template_values_errors::ErrorKind;

// A template whose module is stored in a target. Its text is part of the module.
#[inline(never)]
pub(crate) fn compile_import<'source>(
    alloc: Global,
    code: &mut Instructions<'source>,
    expr: &Expr<'source>,
    target: &Expr<'source>,
    span: &Span,
) -> Result<(), ErrorKind>
    requires expr { IsRunnable (expression_of expr.now) }
    requires target { IsTarget (expression_of target.now) }
    ensures put { OnOk result (Puts (import_code (expression_of expr.now) (expression_of target.now)) code.old code.new) }
    ensures refused { IfErr result (Refuses (code_in code.new)) }
{
    put(
        code,
        Instruction::BeginCapture(CaptureMode::Capture),
        Some(*span),
    )?;
    compile_apart(alloc, code, expr)?;
    put(code, Instruction::EndCapture, Some(*span))?;
    put(code, Instruction::ExportLocals, None)?;
    put(code, Instruction::PopFrame, None)?;
    store(alloc, code, target)
}

// A template of which some names are stored. Its text is dropped.
#[inline(never)]
pub(crate) fn compile_from_import<'source>(
    alloc: Global,
    code: &mut Instructions<'source>,
    node: &FromImport<'source>,
    span: &Span,
) -> Result<(), ErrorKind>
    requires expr { IsRunnable (expression_of node.now.expr) }
    requires names { AreImports (imports_in node.now.names.items) }
    ensures put { OnOk result
        (Puts (from_import_code (expression_of node.now.expr) (imports_in node.now.names.items)) code.old code.new) }
    ensures refused { IfErr result (Refuses (code_in code.new)) }
{
    put(
        code,
        Instruction::BeginCapture(CaptureMode::Discard),
        Some(*span),
    )?;
    compile_apart(alloc, code, &node.expr)?;
    look_up_names(alloc, code, &node.names)?;
    put(code, Instruction::PopFrame, Some(*span))?;
    store_names(alloc, code, &node.names)?;
    put(code, Instruction::EndCapture, Some(*span))?;
    put(code, Instruction::DiscardTop, None)
}

// A template that runs in a frame of its own.
fn compile_apart<'source>(
    alloc: Global,
    code: &mut Instructions<'source>,
    expr: &Expr<'source>,
) -> Result<(), ErrorKind>
    requires { IsRunnable (expression_of expr.now) }
    ensures put { OnOk result (Puts (apart_code (expression_of expr.now)) code.old code.new) }
    ensures refused { IfErr result (Refuses (code_in code.new)) }
{
    put(code, Instruction::PushWith, None)?;
    compile_expr(alloc, code, expr)?;
    put(code, Instruction::Include(false), None)
}

// The names, from the first to the last.
fn look_up_names<'source>(
    alloc: Global,
    code: &mut Instructions<'source>,
    names: &[(Expr<'source>, Option<Expr<'source>>)],
) -> Result<(), ErrorKind>
    requires { AreImports (imports_in names.now) }
    ensures put { OnOk result (Puts (expressions_code (imported_names (imports_in names.now))) code.old code.new) }
    ensures refused { IfErr result (Refuses (code_in code.new)) }
{
    for name in names {
        compile_expr(alloc, code, &name.0)?;
    }
    Ok(())
}

// What stores them, from the last to the first.
fn store_names<'source>(
    alloc: Global,
    code: &mut Instructions<'source>,
    names: &[(Expr<'source>, Option<Expr<'source>>)],
) -> Result<(), ErrorKind>
    requires { AreImports (imports_in names.now) }
    ensures put { OnOk result (Puts (stores_code (imports_in names.now)) code.old code.new) }
    ensures refused { IfErr result (Refuses (code_in code.new)) }
{
    let mut left = names.len();
    while left > 0 {
        left -= 1;
        let name = &names[left];
        store(alloc, code, stored_as(&name.0, &name.1))?;
    }
    Ok(())
}

// Where an imported name is stored: under itself, or under its alias.
fn stored_as<'ast, 'source>(
    name: &'ast Expr<'source>,
    alias: &'ast Option<Expr<'source>>,
) -> &'ast Expr<'source>
    ensures { expression_of result.now ≡ stored_as (expression_of name.now) (optional_in alias.now) }
{
    match alias {
        Some(alias) => alias,
        None => name,
    }
}
