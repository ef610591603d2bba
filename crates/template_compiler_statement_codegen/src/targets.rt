//! Targets: names that a value is stored under, attributes that it is set as, and lists of targets that it is unpacked
//! into.
ghost use Rattle.std.specs.Prelude.{OnOk, IfErr};
ghost use Rattle.template_compiler_tree.specs.Tree.{list_literal};
ghost use Rattle.template_compiler_tree_statements.specs.View.{assignments_in};
ghost use Rattle.template_compiler_tree.specs.View.{expression_of, expressions_in};
ghost use Rattle.template_compiler_walk.specs.Runnable.{IsRunnable, IsTarget, AreTargets, AreAssignments};
ghost use Rattle.template_compiler_code.specs.Code.{set_attr};
ghost use Rattle.template_compiler_code.specs.Listing.{code_in, TakesNoMore};
ghost use Rattle.template_compiler_codegen.specs.Expressions.{then_code, one, expression_code};
ghost use Rattle.template_compiler_codegen.specs.Statements.{assignments_code, target_code};
ghost use Rattle.template_compiler_emission.specs.Puts.{Puts};
ghost use Rattle.template_compiler_statement_codegen.specs.Refusals.{Refuses};

use crate::puts::{compile_expr, put};
use std::alloc::Global;
use std::borrow::CowStr;
use template_compiler_code::{Instruction, Instructions};
use template_compiler_tree::{Expr, Span};
use template_values_errors::{Error, ErrorKind};

/// Puts the code that stores the value on top in a target behind the instructions: under a name, as an attribute of
/// what an expression gives, or unpacked in a list of targets. Linear in the target, besides what the operators of
/// constant trees cost.
///
/// # Errors
///
/// Those of [`Instructions::add`].
pub fn compile_assignment<'source>(
    alloc: Global,
    code: &mut Instructions<'source>,
    target: &Expr<'source>,
) -> Result<(), Error>
    requires { IsTarget (expression_of target.now) }
    ensures put { OnOk result (Puts (target_code (expression_of target.now)) code.old code.new) }
    ensures refused { IfErr result (TakesNoMore (code_in code.new)) }
{
    match store(alloc, code, target) {
        Ok(()) => Ok(()),
        Err(kind) => Err(Error::new(kind)),
    }
}

// The same. Most targets are names.
#[cycle(target)]
#[inline(always)]
pub(crate) fn store<'source>(
    alloc: Global,
    code: &mut Instructions<'source>,
    target: &Expr<'source>,
) -> Result<(), ErrorKind>
    requires { IsTarget (expression_of target.now) }
    ensures put { OnOk result (Puts (target_code (expression_of target.now)) code.old code.new) }
    ensures refused { IfErr result (Refuses (code_in code.new)) }
{
    match target {
        Expr::Var(n) => put(
            code,
            Instruction::StoreLocal(CowStr::Borrowed(n.node.id)),
            Some(n.span),
        ),
        Expr::List(n) => store_items(alloc, code, &n.node.items, n.span),
        Expr::GetAttr(n) => store_attribute(alloc, code, &n.node.expr, n.node.name, n.span),
        Expr::Const(_) => unreachable!(),
        Expr::Slice(_) => unreachable!(),
        Expr::UnaryOp(_) => unreachable!(),
        Expr::BinOp(_) => unreachable!(),
        Expr::Compare(_) => unreachable!(),
        Expr::IfExpr(_) => unreachable!(),
        Expr::Filter(_) => unreachable!(),
        Expr::Test(_) => unreachable!(),
        Expr::GetItem(_) => unreachable!(),
        Expr::Call(_) => unreachable!(),
        Expr::Tuple(_) => unreachable!(),
        Expr::Map(_) => unreachable!(),
    }
}

// An attribute of what an expression gives.
#[inline(never)]
fn store_attribute<'source>(
    alloc: Global,
    code: &mut Instructions<'source>,
    holder: &Expr<'source>,
    name: &'source str,
    span: Span,
) -> Result<(), ErrorKind>
    requires { IsRunnable (expression_of holder.now) }
    ensures put { OnOk result
        (Puts (then_code (expression_code (expression_of holder.now)) (one (set_attr name.now))) code.old code.new) }
    ensures refused { IfErr result (Refuses (code_in code.new)) }
{
    compile_expr(alloc, code, holder)?;
    put(
        code,
        Instruction::SetAttr(CowStr::Borrowed(name)),
        Some(span),
    )
}

// The targets that the items of the value on top go to, from the first to the last.
#[cycle(target)]
#[inline(never)]
fn store_items<'source>(
    alloc: Global,
    code: &mut Instructions<'source>,
    targets: &[Expr<'source>],
    span: Span,
) -> Result<(), ErrorKind>
    requires { AreTargets (expressions_in targets.now) }
    ensures put { OnOk result (Puts (target_code (list_literal (expressions_in targets.now))) code.old code.new) }
    ensures refused { IfErr result (Refuses (code_in code.new)) }
{
    put(code, Instruction::UnpackList(targets.len()), Some(span))?;
    for target in targets {
        store(alloc, code, target)?;
    }
    Ok(())
}

/// Puts the code of targets with their values behind the instructions, from the first to the last: each
/// value, and then what stores it. Linear in them, besides what the operators of constant trees cost.
///
/// # Errors
///
/// Those of [`Instructions::add`].
pub fn compile_assignments<'source>(
    alloc: Global,
    code: &mut Instructions<'source>,
    assignments: &[(Expr<'source>, Expr<'source>)],
) -> Result<(), Error>
    requires { AreAssignments (assignments_in assignments.now) }
    ensures put { OnOk result (Puts (assignments_code (assignments_in assignments.now)) code.old code.new) }
    ensures refused { IfErr result (TakesNoMore (code_in code.new)) }
{
    match store_all(alloc, code, assignments) {
        Ok(()) => Ok(()),
        Err(kind) => Err(Error::new(kind)),
    }
}

// The same.
pub(crate) fn store_all<'source>(
    alloc: Global,
    code: &mut Instructions<'source>,
    assignments: &[(Expr<'source>, Expr<'source>)],
) -> Result<(), ErrorKind>
    requires { AreAssignments (assignments_in assignments.now) }
    ensures put { OnOk result (Puts (assignments_code (assignments_in assignments.now)) code.old code.new) }
    ensures refused { IfErr result (Refuses (code_in code.new)) }
{
    for (target, value) in assignments {
        compile_expr(alloc, code, value)?;
        store(alloc, code, target)?;
    }
    Ok(())
}
