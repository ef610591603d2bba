//! The instructions of operators.
ghost use Rattle.std.specs.Prelude.{◌≡◌, IsNone};
ghost use Rattle.template_compiler_code.specs.Code.{operate, compare_and_preserve};
ghost use Rattle.template_compiler_code.specs.View.{code_of};
ghost use Rattle.template_compiler_codegen.specs.Expressions.{unary_code};
ghost use Rattle.template_compiler_emission.specs.Leaps.{leap_of};

use crate::leaps::Leap;
use template_compiler_code::{CompareOp, Instruction};
use template_compiler_tree::{BinOpKind, CompareOpKind, UnaryOpKind};

/// The jump over the right side of `and` and of `or`; other operators have none.
pub fn leap_of(op: BinOpKind) -> Option<Leap>
    ensures { result ≡ leap_of op }
{
    match op {
        BinOpKind::ScAnd => Some(Leap::IfFalseOrPop),
        BinOpKind::ScOr => Some(Leap::IfTrueOrPop),
        _ => None,
    }
}

/// The instruction of an operator with one operand.
pub fn unary_instruction<'source>(op: UnaryOpKind) -> Instruction<'source>
    ensures { code_of result ≡ unary_code op }
{
    match op {
        UnaryOpKind::Not => Instruction::Not,
        UnaryOpKind::Neg => Instruction::Neg,
    }
}

/// The instruction of an operator with two operands that both run; `and` and `or` are none.
pub fn operator_instruction<'source>(op: BinOpKind) -> Instruction<'source>
    requires { IsNone (leap_of op) }
    ensures { code_of result ≡ operate op }
{
    match op {
        BinOpKind::Eq => Instruction::Eq,
        BinOpKind::Ne => Instruction::Ne,
        BinOpKind::Lt => Instruction::Lt,
        BinOpKind::Lte => Instruction::Lte,
        BinOpKind::Gt => Instruction::Gt,
        BinOpKind::Gte => Instruction::Gte,
        BinOpKind::Add => Instruction::Add,
        BinOpKind::Sub => Instruction::Sub,
        BinOpKind::Mul => Instruction::Mul,
        BinOpKind::Div => Instruction::Div,
        BinOpKind::FloorDiv => Instruction::IntDiv,
        BinOpKind::Rem => Instruction::Rem,
        BinOpKind::Pow => Instruction::Pow,
        BinOpKind::Concat => Instruction::StringConcat,
        BinOpKind::In => Instruction::In,
        BinOpKind::ScAnd | BinOpKind::ScOr => unreachable!(),
    }
}

/// The instruction of a comparison of a chain, which keeps its right side.
pub fn comparison_instruction<'source>(op: CompareOpKind) -> Instruction<'source>
    ensures { code_of result ≡ compare_and_preserve op }
{
    Instruction::CompareAndPreserve(match op {
        CompareOpKind::Eq => CompareOp::Eq,
        CompareOpKind::Ne => CompareOp::Ne,
        CompareOpKind::Lt => CompareOp::Lt,
        CompareOpKind::Lte => CompareOp::Lte,
        CompareOpKind::Gt => CompareOp::Gt,
        CompareOpKind::Gte => CompareOp::Gte,
        CompareOpKind::In => CompareOp::In,
        CompareOpKind::NotIn => CompareOp::NotIn,
    })
}
