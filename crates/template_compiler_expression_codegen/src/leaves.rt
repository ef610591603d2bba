//! Names, literals and attributes, and constants that are held back.
ghost use Rattle.std.specs.Prelude.{◌≡◌, ◌+◌, [], ◌∷◌, None, Some, Ok, OnOk, IfOk, IfErr};
ghost use Rattle.std.specs.Cow.{cow_str_bytes};
ghost use Rattle.template_values_model.specs.Val.{text};
ghost use Rattle.template_compiler_code.specs.Code.{get_attr, load_const, lookup};
ghost use Rattle.template_compiler_code.specs.Listing.{code_in, TakesNoMore};
ghost use Rattle.template_compiler_codegen.specs.Expressions.{one};
ghost use Rattle.template_compiler_emission.specs.Puts.{Puts, held, behind};
ghost use Rattle.template_compiler_expression_codegen.specs.Own.{block_code};

use std::alloc::Global;
use std::borrow::CowStr;
use template_compiler_code::{CaptureMode, Instruction, Instructions};
use template_compiler_emission::{load, push};
use template_compiler_tree::Span;
use template_values_core::Value;
use template_values_errors::ErrorKind;

// What was given, unless memory was refused.
#[inline(always)]
pub(crate) fn unless_refused<T: Drop, E: Drop>(outcome: Result<T, E>) -> Result<T, ErrorKind>
    ensures given { IfOk result (λ value. outcome ≡ Ok value) }
    ensures refused { IfErr result (λ kind. kind ≡ ErrorKind.OutOfMemory) }
{
    match outcome {
        Ok(value) => Ok(value),
        Err(_refused) => Err(ErrorKind::OutOfMemory),
    }
}

// Where the next node of a left chain comes from: the span is still to be told where nothing is put yet.
pub(crate) fn first_from<'a>(
    passed: usize,
    constant: &Option<Value>,
    from: Option<&'a Span>,
) -> Option<&'a Span> {
    if passed == 0 || constant.is_some() {
        from
    } else {
        None
    }
}

// A name, which is no constant.
#[inline(never)]
pub(crate) fn put_name<'source>(
    code: &mut Instructions<'source>,
    name: &'source str,
    from: Option<&Span>,
) -> Result<(), ErrorKind>
    ensures put { OnOk result (Puts (one (lookup name.now)) code.old code.new) }
    ensures refused { IfErr result (λ kind. TakesNoMore (code_in code.new) (kind ∷ [])) }
{
    push(code, Instruction::Lookup(CowStr::Borrowed(name)), from)
}

// The load of a literal. Most are whole numbers.
#[inline(never)]
pub(crate) fn put_literal<'source>(
    code: &mut Instructions<'source>,
    value: &Value,
    from: Option<&Span>,
) -> Result<(), ErrorKind>
    ensures put { OnOk result (Puts (one (load_const value.now)) code.old code.new) }
    ensures refused { IfErr result (λ kind. TakesNoMore (code_in code.new) (kind ∷ [])) }
{
    match value.as_int() {
        Some(number) => push(code, Instruction::LoadConst(Value::from_int(number)), from),
        None => put_copy(code, value, from),
    }
}

// The load of a literal of any kind.
#[inline(never)]
fn put_copy<'source>(
    code: &mut Instructions<'source>,
    value: &Value,
    from: Option<&Span>,
) -> Result<(), ErrorKind>
    ensures put { OnOk result (Puts (one (load_const value.now)) code.old code.new) }
    ensures refused { IfErr result (λ kind. TakesNoMore (code_in code.new) (kind ∷ [])) }
{
    let copy = unless_refused(value.copy())?;
    push(code, Instruction::LoadConst(copy), from)
}

// The load of the name of a keyword argument, which is a text.
#[inline(never)]
pub(crate) fn put_keyword<'source>(
    alloc: Global,
    code: &mut Instructions<'source>,
    name: &str,
    from: Option<&Span>,
) -> Result<(), ErrorKind>
    ensures put { OnOk result (Puts (one (load_const (text name.now))) code.old code.new) }
    ensures refused { IfErr result (λ kind. TakesNoMore (code_in code.new) (kind ∷ [])) }
{
    let value = unless_refused(Value::from_str(alloc, name))?;
    push(code, Instruction::LoadConst(value), from)
}

// Holds a literal back at the place.
#[inline(never)]
pub(crate) fn hold_literal(value: &mut Option<Value>, literal: &Value) -> Result<(), ErrorKind>
    ensures held { OnOk result (value.new ≡ Some literal.now) }
    ensures refused { IfErr result (λ kind. kind ≡ ErrorKind.OutOfMemory) }
{
    let copy = unless_refused(literal.copy())?;
    hold(value, Some(copy));
    Ok(())
}

// Puts the load of a constant, where it was held back; nothing is held back then.
#[inline(always)]
pub(crate) fn load_held<'source>(
    code: &mut Instructions<'source>,
    value: &mut Option<Value>,
    from: Option<&Span>,
) -> Result<(), ErrorKind>
    ensures taken { OnOk result (value.new ≡ None) }
    ensures put { OnOk result (Puts (held value.old) code.old code.new) }
    ensures refused { IfErr result (λ kind. TakesNoMore (code_in code.new) (kind ∷ [])) }
{
    if value.is_none() {
        return Ok(());
    }
    load_taken(code, value, from)
}

// The same where one may have been held back.
#[cold]
#[inline(never)]
pub(crate) fn load_taken<'source>(
    code: &mut Instructions<'source>,
    value: &mut Option<Value>,
    from: Option<&Span>,
) -> Result<(), ErrorKind>
    ensures taken { OnOk result (value.new ≡ None) }
    ensures put { OnOk result (Puts (held value.old) code.old code.new) }
    ensures refused { IfErr result (λ kind. TakesNoMore (code_in code.new) (kind ∷ [])) }
{
    load(code, value.take(), from)
}

// Holds a constant back at the place, or none.
#[inline(never)]
pub(crate) fn hold(value: &mut Option<Value>, constant: Option<Value>)
    ensures { value.new ≡ constant }
{
    *value = constant;
}

// Holds nothing back at the place.
#[inline(always)]
pub(crate) fn let_go(value: &mut Option<Value>)
    ensures { value.new ≡ None }
{
    if value.is_some() {
        hold(value, None);
    }
}

// An attribute of the left part.
#[inline(never)]
pub(crate) fn compile_attribute<'source>(
    code: &mut Instructions<'source>,
    left: &mut Option<Value>,
    name: &'source str,
    from: Option<&Span>,
) -> Result<(), ErrorKind>
    ensures taken { OnOk result (left.new ≡ None) }
    ensures put { OnOk result (Puts (behind left.old (one (get_attr name.now))) code.old code.new) }
    ensures refused { IfErr result (λ kind. TakesNoMore (code_in code.new) (kind ∷ [])) }
{
    load_held(code, left, from)?;
    push(code, Instruction::GetAttr(CowStr::Borrowed(name)), None)
}

// A block's text.
#[inline(never)]
pub(crate) fn put_block<'source>(
    code: &mut Instructions<'source>,
    name: &'source str,
    from: Option<&Span>,
) -> Result<(), ErrorKind>
    ensures put { OnOk result (Puts (block_code name.now) code.old code.new) }
    ensures refused { IfErr result (λ kind. TakesNoMore (code_in code.new) (kind ∷ [])) }
{
    push(code, Instruction::BeginCapture(CaptureMode::Capture), from)?;
    push(code, Instruction::CallBlock(CowStr::Borrowed(name)), None)?;
    push(code, Instruction::EndCapture, None)
}

// One value more is passed. More than an instruction counts are refused as memory is; the grammar reads far fewer.
pub(crate) fn one_more(count: u16) -> Result<u16, ErrorKind>
    ensures counted { IfOk result (λ n. n ≡ count + 1) }
    ensures refused { IfErr result (λ kind. kind ≡ ErrorKind.OutOfMemory) }
{
    if count == u16::MAX {
        return Err(ErrorKind::OutOfMemory);
    }
    Ok(count + 1)
}

// So many values more are passed.
pub(crate) fn several_more(count: u16, more: u16) -> Result<u16, ErrorKind>
    ensures counted { IfOk result (λ n. n ≡ count + more) }
    ensures refused { IfErr result (λ kind. kind ≡ ErrorKind.OutOfMemory) }
{
    if u16::MAX - count < more {
        return Err(ErrorKind::OutOfMemory);
    }
    Ok(count + more)
}

// A copy of the name of a filter or a test. One that is as the source has it is not copied byte by byte.
pub(crate) fn copied_name<'source>(name: &CowStr<'source>) -> Result<CowStr<'source>, ErrorKind>
    ensures copied { IfOk result (λ copy. cow_str_bytes copy ≡ cow_str_bytes name.now) }
    ensures refused { IfErr result (λ kind. kind ≡ ErrorKind.OutOfMemory) }
{
    unless_refused(name.clone())
}
