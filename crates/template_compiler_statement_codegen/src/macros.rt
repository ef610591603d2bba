//! What surrounds the body of a macro: its parameters, and what makes it.
ghost use Rattle.std.specs.Prelude.{◌≡◌, ◌≤◌, OnOk, IfOk, IfErr, length, map, string_bytes, take};
ghost use Rattle.std.specs.BTreeSet.{keys};
ghost use Rattle.template_values_model.specs.Val.{text};
ghost use Rattle.template_compiler_tree.specs.View.{expression_of, expressions_in};
ghost use Rattle.template_compiler_tree_parts.specs.Listed.{statements_in};
ghost use Rattle.template_compiler_names.specs.Enclosed.{enclosed_names, uses_caller};
ghost use Rattle.template_compiler_walk.specs.Runnable.{AreRunnable, AreTargets, IsRunnable};
ghost use Rattle.template_compiler_walk.specs.Statements.{first_of, name_text};
ghost use Rattle.template_compiler_code.specs.Listing.{code_in};
ghost use Rattle.template_compiler_codegen.specs.Statements.{macro_flags};
ghost use Rattle.template_compiler_emission.specs.Puts.{Puts};
ghost use Rattle.template_compiler_statement_codegen.specs.Macros.{backwards, default_code, default_if_given, enclosed_code, made_code, names_of, parameters_code};
ghost use Rattle.template_compiler_statement_codegen.specs.Refusals.{Refuses};

use crate::puts::{append, compile_expr, put, reserve};
use crate::targets::store;
use std::alloc::Global;
use std::borrow::CowStr;
use std::collections::BTreeSet;
use template_compiler_code::{Instruction, Instructions, MACRO_CALLER};
use template_compiler_emission::{Leap, land};
use template_compiler_names_closures::{MacroUses, find_macro_uses};
use template_compiler_tree::Expr;
use template_compiler_tree_statements::Macro;
use template_values_core::Value;
use template_values_errors::ErrorKind;

// What stores the parameters of a macro, of which the last one is on top: from the last to the first, each after its
// default, which takes the place of what was not passed.
pub(crate) fn store_parameters<'source>(
    alloc: Global,
    code: &mut Instructions<'source>,
    arguments: &[Expr<'source>],
    defaults: &[Expr<'source>],
) -> Result<(), ErrorKind>
    requires arguments { AreTargets (expressions_in arguments.now) }
    requires defaults { AreRunnable (expressions_in defaults.now) }
    ensures put { OnOk result (Puts (parameters_code (backwards arguments.now) (backwards defaults.now)) code.old code.new) }
    ensures refused { IfErr result (Refuses (code_in code.new)) }
{
    let mut given = defaults.len();
    let mut left = arguments.len();
    while left > 0 {
        left -= 1;
        put_last_default(alloc, code, defaults, given)?;
        given = given.saturating_sub(1);
        store(alloc, code, &arguments[left])?;
    }
    Ok(())
}

// The last of the first defaults, if there is one.
fn put_last_default<'source>(
    alloc: Global,
    code: &mut Instructions<'source>,
    defaults: &[Expr<'source>],
    given: usize,
) -> Result<(), ErrorKind>
    requires given { given ≤ length defaults.now }
    requires run { AreRunnable (expressions_in defaults.now) }
    ensures put { OnOk result (Puts (default_if_given (first_of (backwards (take given defaults.now)))) code.old code.new) }
    ensures refused { IfErr result (Refuses (code_in code.new)) }
{
    if given == 0 {
        return Ok(());
    }
    let last = given - 1;
    put_default(alloc, code, &defaults[last])
}

// A default, which takes the place of an undefined value on top.
fn put_default<'source>(
    alloc: Global,
    code: &mut Instructions<'source>,
    default: &Expr<'source>,
) -> Result<(), ErrorKind>
    requires { IsRunnable (expression_of default.now) }
    ensures put { OnOk result (Puts (default_code (expression_of default.now)) code.old code.new) }
    ensures refused { IfErr result (Refuses (code_in code.new)) }
{
    put(code, Instruction::DupTop, Some(default.span()))?;
    put(code, Instruction::IsUndefined, None)?;
    let leap = reserve(code, Leap::IfFalse, None)?;
    put(code, Instruction::DiscardTop, None)?;
    compile_expr(alloc, code, default)?;
    land(code, leap, Leap::IfFalse);
    Ok(())
}

// What makes a macro whose body begins at a place: it encloses names, and is told those of its parameters.
#[inline(never)]
pub(crate) fn make_macro<'source>(
    alloc: Global,
    code: &mut Instructions<'source>,
    name: &'source str,
    declared: &Macro<'source>,
    begins: u32,
) -> Result<(), ErrorKind>
    ensures put { OnOk result (Puts (made_code name.now begins declared.now) code.old code.new) }
    ensures refused { IfErr result (Refuses (code_in code.new)) }
{
    let MacroUses { enclosed, caller } = uses_of(alloc, declared)?;
    enclose_all(code, enclosed)?;
    put(code, Instruction::GetClosure, None)?;
    let names = parameter_names(alloc, &declared.args)?;
    put(code, Instruction::LoadConst(names), None)?;
    let name = CowStr::Borrowed(name);
    put(
        code,
        Instruction::BuildMacro(name, begins, macro_flags(caller)),
        None,
    )
}

// What a macro uses of what surrounds it.
fn uses_of(alloc: Global, declared: &Macro<'_>) -> Result<MacroUses, ErrorKind>
    ensures listed { IfOk result (λ uses. map string_bytes (keys uses.enclosed)
        ≡ enclosed_names (expressions_in declared.now.args.items) (expressions_in declared.now.defaults.items)
        (statements_in declared.now.body.items)) }
    ensures caller { IfOk result (λ uses. uses.caller
        ≡ uses_caller (expressions_in declared.now.args.items) (expressions_in declared.now.defaults.items)
        (statements_in declared.now.body.items)) }
    ensures refused { IfErr result (λ kind. kind ≡ ErrorKind.OutOfMemory) }
{
    match find_macro_uses(alloc, declared) {
        Ok(uses) => Ok(uses),
        Err(_refused) => Err(ErrorKind::OutOfMemory),
    }
}

// The names that a macro encloses, in order.
fn enclose_all<'source>(
    code: &mut Instructions<'source>,
    names: BTreeSet<String>,
) -> Result<(), ErrorKind>
    ensures put { OnOk result (Puts (enclosed_code (map string_bytes (keys names))) code.old code.new) }
    ensures refused { IfErr result (Refuses (code_in code.new)) }
{
    let mut left = names;
    while let Some(name) = left.pop_first() {
        put(code, Instruction::Enclose(CowStr::Owned(name)), None)?;
    }
    Ok(())
}

// The names of parameters, as a list.
fn parameter_names(alloc: Global, arguments: &[Expr<'_>]) -> Result<Value, ErrorKind>
    ensures made { IfOk result (λ names. names ≡ names_of (expressions_in arguments.now)) }
    ensures refused { IfErr result (λ kind. kind ≡ ErrorKind.OutOfMemory) }
{
    let mut names = Vec::new(alloc);
    for argument in arguments {
        append(&mut names, name_text(alloc, argument)?)?;
    }
    match Value::from_list(alloc, names) {
        Ok(names) => Ok(names),
        Err(_refused) => Err(ErrorKind::OutOfMemory),
    }
}

// The name of a parameter, as a text.
fn name_text(alloc: Global, argument: &Expr<'_>) -> Result<Value, ErrorKind>
    ensures made { IfOk result (λ name. name ≡ name_text (expression_of argument.now)) }
    ensures refused { IfErr result (λ kind. kind ≡ ErrorKind.OutOfMemory) }
{
    match Value::from_str(alloc, parameter_name(argument)) {
        Ok(name) => Ok(name),
        Err(_refused) => Err(ErrorKind::OutOfMemory),
    }
}

// The name of a parameter. What is no name has none.
fn parameter_name<'source>(argument: &Expr<'source>) -> &'source str
    ensures { text result.now ≡ name_text (expression_of argument.now) }
{
    match argument {
        Expr::Var(n) => n.node.id,
        _ => "",
    }
}

// Whether a macro takes a caller.
fn macro_flags(caller: bool) -> u8
    ensures { result ≡ macro_flags caller }
{
    if caller { MACRO_CALLER } else { 0 }
}
