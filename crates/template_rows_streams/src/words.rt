//! The words for instructions.
use serde_json::Value as Json;
use std::alloc::Global;
use std::borrow::CowStr;
use template_compiler_code::{
    CaptureMode, CompareOp, Instruction, LOOP_FLAG_RECURSIVE, LOOP_FLAG_WITH_LOOP_VAR,
};
use template_values_core::Value;
use template_values_errors::{Error, ErrorKind};

/// The instruction that a word says, or a word with a number or a name's letter; or `constant` with a text.
///
/// # Errors
///
/// `SyntaxError` where none is said; `OutOfMemory`.
pub fn instruction(alloc: Global, step: &Json) -> Result<Instruction<'static>, Error> {
    match step {
        Json::String(word) => known(plain(word.as_str())),
        Json::Array(pair) => match pair.as_slice() {
            [Json::String(word), Json::String(name)] => lettered(
                alloc,
                word.as_str(),
                name.as_str(),
            ),
            [Json::String(word), number] => numbered(alloc, word.as_str(), number),
            _ => known(None),
        },
        _ => known(None),
    }
}

fn known(instruction: Option<Instruction<'static>>) -> Result<Instruction<'static>, Error> {
    match instruction {
        Some(instruction) => Ok(instruction),
        None => Err(Error::new(ErrorKind::SyntaxError)),
    }
}

// The text itself, or one with a name: a letter.
fn lettered(alloc: Global, word: &str, name: &str) -> Result<Instruction<'static>, Error> {
    match word {
        "constant" => Ok(Instruction::LoadConst(Value::from_str(alloc, name)?)),
        _ => known(named(word, name)),
    }
}

// A list of so many values, or one with a place or a count.
fn numbered(alloc: Global, word: &str, number: &Json) -> Result<Instruction<'static>, Error> {
    match word {
        "names" | "ones" | "mixed" | "tuple_of_names" => {
            let list = list(alloc, word, count_in(number))?;
            Ok(Instruction::LoadConst(list))
        }
        _ => known(leading(word, number)),
    }
}

fn list(alloc: Global, word: &str, count: usize) -> Result<Value, Error> {
    match word {
        "names" => names(alloc, count),
        "ones" => ones(alloc, count),
        "mixed" => mixed(alloc),
        _ => Value::from_tuple(alloc, Vec::new(alloc)),
    }
}

// A number that is none is 0.
fn count_in(number: &Json) -> usize {
    number.as_u64().unwrap_or(0) as usize
}

// A count; none for `null`.
fn counted(number: &Json) -> Option<usize> {
    match number {
        Json::Null => None,
        _ => Some(count_in(number)),
    }
}

fn counted_call(number: &Json) -> Option<u16> {
    match number {
        Json::Null => None,
        _ => Some(u16::try_from(number.as_u64().unwrap_or(0)).unwrap_or(0)),
    }
}

fn place_in(number: &Json) -> u32 {
    u32::try_from(number.as_u64().unwrap_or(0)).unwrap_or(0)
}

// A list of so many texts.
fn names(alloc: Global, count: usize) -> Result<Value, Error> {
    let mut items = Vec::new(alloc);
    for _name in 0..count {
        items.push(Value::from_str(alloc, "n")?)?;
    }
    Value::from_list(alloc, items)
}

// A list of so many ones.
fn ones(alloc: Global, count: usize) -> Result<Value, Error> {
    let mut items = Vec::new(alloc);
    for _one in 0..count {
        items.push(Value::from_int(1))?;
    }
    Value::from_list(alloc, items)
}

// A list of a text and a number.
fn mixed(alloc: Global) -> Result<Value, Error> {
    let mut items = Vec::new(alloc);
    items.push(Value::from_str(alloc, "n")?)?;
    items.push(Value::from_int(1))?;
    Value::from_list(alloc, items)
}

// One with a name: a letter.
fn named(word: &str, name: &str) -> Option<Instruction<'static>> {
    let name = CowStr::Borrowed(match name {
        "a" => "a",
        "b" => "b",
        "c" => "c",
        _ => "d",
    });
    match word {
        "text" => Some(Instruction::EmitRaw(name)),
        "lookup" => Some(Instruction::Lookup(name)),
        "store" => Some(Instruction::StoreLocal(name)),
        "function" => Some(Instruction::CallFunction(name, Some(0))),
        _ => None,
    }
}

// One with a place or a count.
fn leading(word: &str, number: &Json) -> Option<Instruction<'static>> {
    match word {
        "jump" => Some(Instruction::Jump(place_in(number))),
        "jump_if_false" => Some(Instruction::JumpIfFalse(place_in(number))),
        "jump_if_false_or_pop" => Some(Instruction::JumpIfFalseOrPop(place_in(number))),
        "jump_if_true_or_pop" => Some(Instruction::JumpIfTrueOrPop(place_in(number))),
        "iterate" => Some(Instruction::Iterate(place_in(number))),
        "macro" => Some(Instruction::BuildMacro(CowStr::Borrowed("m"), place_in(number), 0)),
        _ => counting(word, number),
    }
}

fn counting(word: &str, number: &Json) -> Option<Instruction<'static>> {
    match word {
        "map" => Some(Instruction::BuildMap(count_in(number))),
        "kwargs" => Some(Instruction::BuildKwargs(count_in(number))),
        "merge" => Some(Instruction::MergeKwargs(count_in(number))),
        "list" => Some(Instruction::BuildList(counted(number))),
        "tuple" => Some(Instruction::BuildTuple(counted(number))),
        "unpack" => Some(Instruction::UnpackList(count_in(number))),
        "spread" => Some(Instruction::UnpackLists(count_in(number))),
        _ => calling(word, counted_call(number)),
    }
}

fn calling(word: &str, count: Option<u16>) -> Option<Instruction<'static>> {
    match word {
        "filter" => Some(Instruction::ApplyFilter(CowStr::Borrowed("f"), count, 0)),
        "test" => Some(Instruction::PerformTest(CowStr::Borrowed("t"), count, 0)),
        "function" => Some(Instruction::CallFunction(CowStr::Borrowed("f"), count)),
        "method" => Some(Instruction::CallMethod(CowStr::Borrowed("m"), count)),
        "call" => Some(Instruction::CallObject(count)),
        _ => None,
    }
}

fn plain(word: &str) -> Option<Instruction<'static>> {
    match word {
        "text" => Some(Instruction::EmitRaw(CowStr::Borrowed("text"))),
        "name" => Some(Instruction::Lookup(CowStr::Borrowed("name"))),
        "none" => Some(Instruction::LoadConst(Value::none())),
        "zero" => Some(Instruction::LoadConst(Value::from_int(0))),
        "one" => Some(Instruction::LoadConst(Value::from_int(1))),
        "two" => Some(Instruction::LoadConst(Value::from_int(2))),
        "true" => Some(Instruction::LoadConst(Value::from_bool(true))),
        "emit" => Some(Instruction::Emit),
        "store" => Some(Instruction::StoreLocal(CowStr::Borrowed("name"))),
        "discard" => Some(Instruction::DiscardTop),
        _ => operating(word),
    }
}

fn operating(word: &str) -> Option<Instruction<'static>> {
    match word {
        "attribute" => Some(Instruction::GetAttr(CowStr::Borrowed("a"))),
        "set_attribute" => Some(Instruction::SetAttr(CowStr::Borrowed("a"))),
        "item" => Some(Instruction::GetItem),
        "slice" => Some(Instruction::Slice),
        "negate" => Some(Instruction::Neg),
        "not" => Some(Instruction::Not),
        "undefined" => Some(Instruction::IsUndefined),
        "compare" => Some(Instruction::CompareAndPreserve(CompareOp::Lt)),
        "swap" => Some(Instruction::Swap),
        "dup" => Some(Instruction::DupTop),
        _ => joining(word),
    }
}

// What makes one of two values.
fn joining(word: &str) -> Option<Instruction<'static>> {
    match word {
        "add" => Some(Instruction::Add),
        "sub" => Some(Instruction::Sub),
        "mul" => Some(Instruction::Mul),
        "div" => Some(Instruction::Div),
        "int_div" => Some(Instruction::IntDiv),
        "rem" => Some(Instruction::Rem),
        "pow" => Some(Instruction::Pow),
        "equal" => Some(Instruction::Eq),
        "unequal" => Some(Instruction::Ne),
        "greater" => Some(Instruction::Gt),
        "at_least" => Some(Instruction::Gte),
        "less" => Some(Instruction::Lt),
        "at_most" => Some(Instruction::Lte),
        "concat" => Some(Instruction::StringConcat),
        "in" => Some(Instruction::In),
        _ => around(word),
    }
}

// What opens or closes something.
fn around(word: &str) -> Option<Instruction<'static>> {
    match word {
        "with" => Some(Instruction::PushWith),
        "end_frame" => Some(Instruction::PopFrame),
        "escape" => Some(Instruction::PushAutoEscape),
        "end_escape" => Some(Instruction::PopAutoEscape),
        "capture" => Some(Instruction::BeginCapture(CaptureMode::Capture)),
        "discarding" => Some(Instruction::BeginCapture(CaptureMode::Discard)),
        "end_capture" => Some(Instruction::EndCapture),
        "loop" => Some(Instruction::PushLoop(0)),
        "loop_with_variable" => Some(Instruction::PushLoop(LOOP_FLAG_WITH_LOOP_VAR)),
        "recursive_loop" => Some(Instruction::PushLoop(LOOP_FLAG_RECURSIVE)),
        "did_not_iterate" => Some(Instruction::PushDidNotIterate),
        "end_loop" => Some(Instruction::PopLoopFrame),
        _ => running(word),
    }
}

// What runs other code, and what macros and modules are made of.
fn running(word: &str) -> Option<Instruction<'static>> {
    match word {
        "super" => Some(Instruction::FastSuper),
        "recurse" => Some(Instruction::FastRecurse),
        "block" => Some(Instruction::CallBlock(CowStr::Borrowed("b"))),
        "load_blocks" => Some(Instruction::LoadBlocks),
        "include" => Some(Instruction::Include(false)),
        "export" => Some(Instruction::ExportLocals),
        "enclose" => Some(Instruction::Enclose(CowStr::Borrowed("a"))),
        "closure" => Some(Instruction::GetClosure),
        "return" => Some(Instruction::Return),
        _ => None,
    }
}
