//! The instructions.

ghost use Rattle.std.specs.Prelude.{◌≡◌, IfOk, IfErr};
ghost use Rattle.std.specs.Cow.{cow_str_bytes};
ghost use Rattle.template_values_errors.specs.Memory.{NoMemory};
ghost use Rattle.template_compiler_code.specs.Code.{operator_in};
ghost use Rattle.template_compiler_code.specs.View.{code_of};
ghost use Rattle.template_compiler_code.specs.Prices.{price_of};

use std::alloc::Global;
use std::borrow::CowStr;
use template_compiler_tree::BinOpKind;
use template_values_core::Value;
use template_values_errors::Error;

/// The number under which a stream knows a filter or a test.
pub type LocalId = u8;

/// How many filters, and how many tests, a stream knows by numbers of their own.
pub const MAX_LOCALS: usize = 50;

/// A loop has its variable.
pub const LOOP_FLAG_WITH_LOOP_VAR: u8 = 1;

/// A loop may be called again from within.
pub const LOOP_FLAG_RECURSIVE: u8 = 2;

/// A macro takes a caller.
pub const MACRO_CALLER: u8 = 2;

/// A comparison in a chain of them.
#[derive(Clone, Copy, Debug, PartialEq, Eq)]
pub enum CompareOp {
    /// `==`.
    Eq,
    /// `!=`.
    Ne,
    /// `<`.
    Lt,
    /// `<=`.
    Lte,
    /// `>`.
    Gt,
    /// `>=`.
    Gte,
    /// `in`.
    In,
    /// `not in`.
    NotIn,
}

/// What becomes of the text that is written until a capture ends.
#[derive(Clone, Copy, Debug, PartialEq, Eq)]
pub enum CaptureMode {
    /// It is kept.
    Capture,
    /// It is dropped.
    Discard,
}

/// An instruction of the virtual machine. Targets of jumps are places in the stream, the first one 0; a
/// count that is left out stands for a counted run of operands.
#[derive(Drop)]
pub enum Instruction<'source> {
    /// Writes a text of the template.
    EmitRaw(CowStr<'source>),
    /// Takes a value, and stores it under a name.
    StoreLocal(CowStr<'source>),
    /// Gives the value of a name.
    Lookup(CowStr<'source>),
    /// Takes a value, and gives its attribute.
    GetAttr(CowStr<'source>),
    /// Takes a value and a namespace, whose attribute it sets.
    SetAttr(CowStr<'source>),
    /// Takes a value and a key, and gives the item under it.
    GetItem,
    /// Takes a value, start, stop and step, and gives the slice.
    Slice,
    /// Gives a constant.
    LoadConst(Value),
    /// Takes so many keys, each with its value, and gives their map.
    BuildMap(usize),
    /// The same for a keyword map.
    BuildKwargs(usize),
    /// Takes so many maps, and gives one keyword map of them all.
    MergeKwargs(usize),
    /// Takes so many values, and gives their list.
    BuildList(Option<usize>),
    /// The same for a tuple.
    BuildTuple(Option<usize>),
    /// Takes a value, and gives its so many items, the first one on top.
    UnpackList(usize),
    /// Takes so many lists, and gives a counted run of their items.
    UnpackLists(usize),
    /// `+`.
    Add,
    /// `-`.
    Sub,
    /// `*`.
    Mul,
    /// `/`.
    Div,
    /// `//`.
    IntDiv,
    /// `%`.
    Rem,
    /// `**`.
    Pow,
    /// Minus.
    Neg,
    /// `==`.
    Eq,
    /// `!=`.
    Ne,
    /// `>`.
    Gt,
    /// `>=`.
    Gte,
    /// `<`.
    Lt,
    /// `<=`.
    Lte,
    /// `not`.
    Not,
    /// `~`.
    StringConcat,
    /// `in`.
    In,
    /// Takes two values, and gives the second one and whether the comparison holds.
    CompareAndPreserve(CompareOp),
    /// Applies a filter to so many values.
    ApplyFilter(CowStr<'source>, Option<u16>, LocalId),
    /// Performs a test on so many values.
    PerformTest(CowStr<'source>, Option<u16>, LocalId),
    /// Takes a value, and prints it.
    Emit,
    /// Takes a value, and opens a loop over it.
    PushLoop(u8),
    /// Opens a frame.
    PushWith,
    /// Gives the next item of the loop, or goes on at the target where there is none.
    Iterate(u32),
    /// Gives whether the loop was given no item.
    PushDidNotIterate,
    /// Closes a frame.
    PopFrame,
    /// Closes a loop's frame.
    PopLoopFrame,
    /// Takes a value, and gives whether it is undefined.
    IsUndefined,
    /// Goes on at the target.
    Jump(u32),
    /// Takes a value, and goes on at the target where it is false.
    JumpIfFalse(u32),
    /// Goes on at the target where the value on top is false; else takes it.
    JumpIfFalseOrPop(u32),
    /// Goes on at the target where the value on top is true; else takes it.
    JumpIfTrueOrPop(u32),
    /// Takes a value, and escapes as it says from now on.
    PushAutoEscape,
    /// Escapes again as before.
    PopAutoEscape,
    /// Begins a capture.
    BeginCapture(CaptureMode),
    /// Ends a capture, and gives its text.
    EndCapture,
    /// Calls what stands under a name, with so many values.
    CallFunction(CowStr<'source>, Option<u16>),
    /// Calls a method of the first of so many values.
    CallMethod(CowStr<'source>, Option<u16>),
    /// Calls the first of so many values.
    CallObject(Option<u16>),
    /// Gives the value on top once more.
    DupTop,
    /// Takes a value.
    DiscardTop,
    /// Swaps the two values on top.
    Swap,
    /// Runs the parent of the current block.
    FastSuper,
    /// Takes a value, and runs the innermost loop's rounds over it.
    FastRecurse,
    /// Runs a block.
    CallBlock(CowStr<'source>),
    /// Takes the name of a parent, and loads its blocks.
    LoadBlocks,
    /// Takes the name or the names of a template, and runs it here; a missing one may be ignored.
    Include(bool),
    /// Gives the module of the innermost frame's names.
    ExportLocals,
    /// Makes a macro whose body begins at the target.
    BuildMacro(CowStr<'source>, u32, u8),
    /// Ends the body of a macro.
    Return,
    /// Encloses a name.
    Enclose(CowStr<'source>),
    /// Gives the closure of the innermost frame.
    GetClosure,
}

impl<'source> Instruction<'source> {
    /// What the instruction costs of a run's fuel. The charge comes before what the instruction does.
    pub fn price(&self) -> u64
        ensures { result ≡ price_of (code_of self.now) }
    {
        match self {
            Instruction::LoadConst(_)
            | Instruction::BeginCapture(_)
            | Instruction::PushLoop(_)
            | Instruction::PushDidNotIterate
            | Instruction::PushWith
            | Instruction::PopFrame
            | Instruction::PopLoopFrame
            | Instruction::DupTop
            | Instruction::DiscardTop
            | Instruction::PushAutoEscape
            | Instruction::PopAutoEscape
            | Instruction::ExportLocals
            | Instruction::LoadBlocks
            | Instruction::BuildMacro(_, _, _)
            | Instruction::Return => 0,
            _ => 1,
        }
    }

    /// The operator of an instruction that takes two operands, and gives what the operator makes of them; others have none.
    #[inline(always)]
    pub fn operator(&self) -> Option<BinOpKind>
        ensures { result ≡ operator_in (code_of self.now) }
    {
        match self {
            Instruction::Add => Some(BinOpKind::Add),
            Instruction::Sub => Some(BinOpKind::Sub),
            Instruction::Mul => Some(BinOpKind::Mul),
            Instruction::Div => Some(BinOpKind::Div),
            Instruction::IntDiv => Some(BinOpKind::FloorDiv),
            Instruction::Rem => Some(BinOpKind::Rem),
            Instruction::Pow => Some(BinOpKind::Pow),
            Instruction::Eq => Some(BinOpKind::Eq),
            Instruction::Ne => Some(BinOpKind::Ne),
            Instruction::Gt => Some(BinOpKind::Gt),
            Instruction::Gte => Some(BinOpKind::Gte),
            Instruction::Lt => Some(BinOpKind::Lt),
            Instruction::Lte => Some(BinOpKind::Lte),
            Instruction::StringConcat => Some(BinOpKind::Concat),
            Instruction::In => Some(BinOpKind::In),
            _ => None,
        }
    }

    /// The same with texts of its own, which are copied where they were borrowed.
    ///
    /// # Errors
    ///
    /// [`ErrorKind::OutOfMemory`](template_values_errors::ErrorKind::OutOfMemory).
    pub fn into_owned<'owned>(self, alloc: Global) -> Result<Instruction<'owned>, Error>
        ensures same { IfOk result (λ i. code_of i ≡ code_of self.entry) }
        ensures refused { IfErr result NoMemory }
    {
        Ok(match self {
            Instruction::EmitRaw(text) => Instruction::EmitRaw(owned(alloc, text)?),
            Instruction::StoreLocal(text) => Instruction::StoreLocal(owned(alloc, text)?),
            Instruction::Lookup(text) => Instruction::Lookup(owned(alloc, text)?),
            Instruction::GetAttr(text) => Instruction::GetAttr(owned(alloc, text)?),
            Instruction::SetAttr(text) => Instruction::SetAttr(owned(alloc, text)?),
            Instruction::GetItem => Instruction::GetItem,
            Instruction::Slice => Instruction::Slice,
            Instruction::LoadConst(value) => Instruction::LoadConst(value),
            Instruction::BuildMap(count) => Instruction::BuildMap(count),
            Instruction::BuildKwargs(count) => Instruction::BuildKwargs(count),
            Instruction::MergeKwargs(count) => Instruction::MergeKwargs(count),
            Instruction::BuildList(count) => Instruction::BuildList(count),
            Instruction::BuildTuple(count) => Instruction::BuildTuple(count),
            Instruction::UnpackList(count) => Instruction::UnpackList(count),
            Instruction::UnpackLists(count) => Instruction::UnpackLists(count),
            Instruction::Add => Instruction::Add,
            Instruction::Sub => Instruction::Sub,
            Instruction::Mul => Instruction::Mul,
            Instruction::Div => Instruction::Div,
            Instruction::IntDiv => Instruction::IntDiv,
            Instruction::Rem => Instruction::Rem,
            Instruction::Pow => Instruction::Pow,
            Instruction::Neg => Instruction::Neg,
            Instruction::Eq => Instruction::Eq,
            Instruction::Ne => Instruction::Ne,
            Instruction::Gt => Instruction::Gt,
            Instruction::Gte => Instruction::Gte,
            Instruction::Lt => Instruction::Lt,
            Instruction::Lte => Instruction::Lte,
            Instruction::Not => Instruction::Not,
            Instruction::StringConcat => Instruction::StringConcat,
            Instruction::In => Instruction::In,
            Instruction::CompareAndPreserve(op) => Instruction::CompareAndPreserve(op),
            Instruction::ApplyFilter(text, count, id) => Instruction::ApplyFilter(
                owned(alloc, text)?,
                count,
                id,
            ),
            Instruction::PerformTest(text, count, id) => Instruction::PerformTest(
                owned(alloc, text)?,
                count,
                id,
            ),
            Instruction::Emit => Instruction::Emit,
            Instruction::PushLoop(flags) => Instruction::PushLoop(flags),
            Instruction::PushWith => Instruction::PushWith,
            Instruction::Iterate(to) => Instruction::Iterate(to),
            Instruction::PushDidNotIterate => Instruction::PushDidNotIterate,
            Instruction::PopFrame => Instruction::PopFrame,
            Instruction::PopLoopFrame => Instruction::PopLoopFrame,
            Instruction::IsUndefined => Instruction::IsUndefined,
            Instruction::Jump(to) => Instruction::Jump(to),
            Instruction::JumpIfFalse(to) => Instruction::JumpIfFalse(to),
            Instruction::JumpIfFalseOrPop(to) => Instruction::JumpIfFalseOrPop(to),
            Instruction::JumpIfTrueOrPop(to) => Instruction::JumpIfTrueOrPop(to),
            Instruction::PushAutoEscape => Instruction::PushAutoEscape,
            Instruction::PopAutoEscape => Instruction::PopAutoEscape,
            Instruction::BeginCapture(mode) => Instruction::BeginCapture(mode),
            Instruction::EndCapture => Instruction::EndCapture,
            Instruction::CallFunction(text, count) => Instruction::CallFunction(
                owned(alloc, text)?,
                count,
            ),
            Instruction::CallMethod(text, count) => Instruction::CallMethod(
                owned(alloc, text)?,
                count,
            ),
            Instruction::CallObject(count) => Instruction::CallObject(count),
            Instruction::DupTop => Instruction::DupTop,
            Instruction::DiscardTop => Instruction::DiscardTop,
            Instruction::Swap => Instruction::Swap,
            Instruction::FastSuper => Instruction::FastSuper,
            Instruction::FastRecurse => Instruction::FastRecurse,
            Instruction::CallBlock(text) => Instruction::CallBlock(owned(alloc, text)?),
            Instruction::LoadBlocks => Instruction::LoadBlocks,
            Instruction::Include(ignore_missing) => Instruction::Include(ignore_missing),
            Instruction::ExportLocals => Instruction::ExportLocals,
            Instruction::BuildMacro(text, to, flags) => Instruction::BuildMacro(
                owned(alloc, text)?,
                to,
                flags,
            ),
            Instruction::Return => Instruction::Return,
            Instruction::Enclose(text) => Instruction::Enclose(owned(alloc, text)?),
            Instruction::GetClosure => Instruction::GetClosure,
        })
    }
}

// A text that is its own.
pub(crate) fn owned<'owned>(alloc: Global, text: CowStr<'_>) -> Result<CowStr<'owned>, Error>
    ensures same { IfOk result (λ t. cow_str_bytes t ≡ cow_str_bytes text.entry) }
    ensures refused { IfErr result NoMemory }
{
    Ok(CowStr::Owned(text.into_owned(alloc)?))
}
