//! The code of templates.
use crate::NAME;
use crate::numbers::write_numbers;
use crate::report::Report;
use crate::runs::write_runs;
use crate::syntax::parts_of_syntax;
use std::alloc::Global;
use std::borrow::CowStr;
use template_compiled::{CompiledBlock, CompiledTemplate, CompiledTemplates, TemplateConfig};
use template_compiler_code::{
    CaptureMode, Instruction, Instructions, LOOP_FLAG_WITH_LOOP_VAR, MACRO_CALLER,
    get_referenced_names,
};
use template_values_core::{Content, Value};
use template_values_errors::Error;

/// What is asked of the code of a template: `code`, `owned`, `blocks`, `numbers`, `runs`, `references`, `hint` or `under`.
pub(crate) fn about_code(alloc: Global, source: &str, ask: &str, out: &mut Report) {
    let compiled = compiled(alloc, source, ask == "owned");
    about_compiled(alloc, &compiled, ask, out)
}

// The template, with a name and a source that it lends, or with copies of them.
fn compiled(alloc: Global, source: &str, is_owned: bool) -> Result<CompiledTemplate<'_>, Error> {
    let config = TemplateConfig::new();
    if is_owned {
        let (name, source) = (CowStr::Borrowed(NAME), CowStr::Borrowed(source));
        return CompiledTemplate::from_owned(alloc, name, source, &config);
    }
    CompiledTemplate::new(alloc, NAME, source, &config)
}

fn about_compiled(
    alloc: Global,
    compiled: &Result<CompiledTemplate<'_>, Error>,
    ask: &str,
    out: &mut Report,
) {
    match compiled {
        Ok(template) => write_code(alloc, template, ask, out),
        Err(error) => out.refuse(error.kind()),
    }
}

fn write_code(alloc: Global, template: &CompiledTemplate<'_>, ask: &str, out: &mut Report) {
    out.push('(');
    out.push_str(ask);
    let code = template.instructions();
    match ask {
        "numbers" => write_numbers(code, out),
        "runs" => write_runs(template.source(), code, out),
        "references" => write_references(alloc, code, out),
        "owned" => write_owned(template, out),
        "blocks" => write_blocks(template.blocks(), out),
        "hint" => out.tell(" ", &template.buffer_size_hint()),
        "under" => parts_of_syntax(alloc, template.syntax(), out),
        _ => write_instructions(code, out),
    }
    out.push(')')
}

// The instructions behind the name and the source.
fn write_owned(template: &CompiledTemplate<'_>, out: &mut Report) {
    out.word(template.name());
    out.tell(" ", &template.source());
    write_instructions(template.instructions(), out)
}

// The blocks, each with the instructions of its body.
fn write_blocks(blocks: &[CompiledBlock<'_>], out: &mut Report) {
    for block in blocks {
        out.push_str(" (");
        out.push_str(block.name.as_str());
        if block.required {
            out.push_str(" required")
        }
        write_instructions(&block.instructions, out);
        out.push(')')
    }
}

pub(crate) fn write_instructions(code: &Instructions<'_>, out: &mut Report) {
    for index in 0..code.len() as u32 {
        out.push(' ');
        if let Some(instruction) = code.get(index) {
            write_instruction(instruction, out)
        }
    }
}

fn write_instruction(instruction: &Instruction<'_>, out: &mut Report) {
    match instruction {
        Instruction::EmitRaw(text) => out.group("raw", &text.as_str()),
        Instruction::Lookup(name) => write_named("(lookup", name.as_str(), out),
        Instruction::LoadConst(value) => write_load(value, out),
        Instruction::StoreLocal(name) => write_named("(store", name.as_str(), out),
        Instruction::Emit => out.push_str("emit"),
        _ => write_control(instruction, out),
    }
}

fn write_named(head: &str, name: &str, out: &mut Report) {
    out.push_str(head);
    out.word(name);
    out.push(')')
}

// A jump, or what opens or closes a frame.
fn write_control(instruction: &Instruction<'_>, out: &mut Report) {
    match instruction {
        Instruction::Jump(to) => out.group("jump", to),
        Instruction::JumpIfFalse(to) => out.group("jump_if_false", to),
        Instruction::JumpIfFalseOrPop(to) => out.group("jump_if_false_or_pop", to),
        Instruction::JumpIfTrueOrPop(to) => out.group("jump_if_true_or_pop", to),
        Instruction::Iterate(to) => out.group("iterate", to),
        Instruction::PushWith => out.push_str("with"),
        Instruction::PopFrame => out.push_str("end_frame"),
        Instruction::PushLoop(LOOP_FLAG_WITH_LOOP_VAR) => out.push_str("loop_with_variable"),
        Instruction::PushDidNotIterate => out.push_str("did_not_iterate"),
        Instruction::PopLoopFrame => out.push_str("end_loop"),
        _ => write_moved(instruction, out),
    }
}

// What opens or closes a capture, or moves operands.
fn write_moved(instruction: &Instruction<'_>, out: &mut Report) {
    match instruction {
        Instruction::BeginCapture(CaptureMode::Capture) => out.push_str("capture"),
        Instruction::EndCapture => out.push_str("end_capture"),
        Instruction::PushLoop(0) => out.push_str("loop"),
        Instruction::PushLoop(3) => out.push_str("recursive_loop_with_variable"),
        Instruction::UnpackList(count) => out.group("unpack", count),
        Instruction::UnpackLists(count) => out.group("spread", count),
        Instruction::BuildList(None) => out.push_str("(list counted)"),
        Instruction::Swap => out.push_str("swap"),
        Instruction::DupTop => out.push_str("dup"),
        Instruction::DiscardTop => out.push_str("discard"),
        Instruction::Add => out.push_str("add"),
        _ => write_looked(instruction, out),
    }
}

// What gives or sets a part of a value.
fn write_looked(instruction: &Instruction<'_>, out: &mut Report) {
    match instruction {
        Instruction::GetAttr(name) => write_named("(attr", name.as_str(), out),
        Instruction::SetAttr(name) => write_named("(set_attr", name.as_str(), out),
        Instruction::GetItem => out.push_str("item"),
        Instruction::BuildKwargs(count) => out.group("keywords", count),
        _ => write_called(instruction, out),
    }
}

// A call, with the number of values that it takes.
fn write_called(instruction: &Instruction<'_>, out: &mut Report) {
    match instruction {
        Instruction::CallFunction(name, count) => {
            write_call("(call", Some(name.as_str()), *count, out)
        }
        Instruction::CallMethod(name, count) => {
            write_call("(method", Some(name.as_str()), *count, out)
        }
        Instruction::CallObject(count) => write_call("(call_value", None, *count, out),
        _ => write_applied(instruction, out),
    }
}

// A filter or a test, with the number of values that it takes, or what gathers arguments or turns an answer.
fn write_applied(instruction: &Instruction<'_>, out: &mut Report) {
    match instruction {
        Instruction::ApplyFilter(name, count, _) => {
            write_call("(filter", Some(name.as_str()), *count, out)
        }
        Instruction::PerformTest(name, count, _) => {
            write_call("(test", Some(name.as_str()), *count, out)
        }
        Instruction::BuildList(Some(count)) => out.group("list", count),
        Instruction::MergeKwargs(count) => out.group("merge", count),
        Instruction::Not => out.push_str("not"),
        _ => write_placed(instruction, out),
    }
}

// What runs a block or another template, or makes a module of what one stores.
fn write_placed(instruction: &Instruction<'_>, out: &mut Report) {
    match instruction {
        Instruction::CallBlock(name) => write_named("(block", name.as_str(), out),
        Instruction::FastSuper => out.push_str("super"),
        Instruction::LoadBlocks => out.push_str("extends"),
        Instruction::Include(false) => out.push_str("include"),
        Instruction::ExportLocals => out.push_str("export"),
        Instruction::BeginCapture(CaptureMode::Discard) => out.push_str("drop"),
        _ => write_declared(instruction, out),
    }
}

// What makes a macro or ends its body, or runs a loop's rounds again.
fn write_declared(instruction: &Instruction<'_>, out: &mut Report) {
    match instruction {
        Instruction::Enclose(name) => write_named("(enclose", name.as_str(), out),
        Instruction::GetClosure => out.push_str("closure"),
        Instruction::BuildMacro(name, begins, flags) => {
            write_macro(name.as_str(), *begins, *flags, out)
        }
        Instruction::Return => out.push_str("return"),
        Instruction::IsUndefined => out.push_str("is_undefined"),
        Instruction::FastRecurse => out.push_str("recurse"),
        _ => out.push('?'),
    }
}

// A macro, with the place where its body begins, and whether it takes a caller.
fn write_macro(name: &str, begins: u32, flags: u8, out: &mut Report) {
    out.push_str("(macro");
    out.word(name);
    out.tell(" ", &begins);
    if flags == MACRO_CALLER {
        out.word("caller")
    }
    out.push(')')
}

fn write_call(head: &str, name: Option<&str>, count: Option<u16>, out: &mut Report) {
    out.push_str(head);
    if let Some(name) = name {
        out.word(name)
    }
    match count {
        Some(count) => out.tell(" ", &count),
        None => out.word("counted"),
    }
    out.push(')')
}

// A constant of a kind that literals have.
fn write_load(value: &Value, out: &mut Report) {
    match value.content() {
        Content::None => out.push_str("(load none)"),
        Content::Truth(truth) => out.group("load", &truth),
        Content::Int(number) => out.group("load", &number),
        Content::Text(text) => out.group("load", &text),
        Content::List(names) => write_names(names, out),
        _ => out.push_str("(load ?)"),
    }
}

// The names of a macro's parameters.
fn write_names(names: &[Value], out: &mut Report) {
    out.push_str("(load names");
    for name in names {
        if let Content::Text(text) = name.content() {
            out.word(text)
        }
    }
    out.push(')')
}

// The names that the instructions refer to, up to each of them and past the last one.
fn write_references(alloc: Global, code: &Instructions<'_>, out: &mut Report) {
    let count = code.len() as u32;
    for index in 0..count {
        references_at(alloc, code, index, out)
    }
    references_at(alloc, code, count, out)
}

fn references_at(alloc: Global, code: &Instructions<'_>, index: u32, out: &mut Report) {
    match &get_referenced_names(alloc, code, index) {
        Ok(names) => write_references_at(index, names.as_slice(), out),
        Err(error) => out.refuse(error.kind()),
    }
}

fn write_references_at(index: u32, names: &[&str], out: &mut Report) {
    out.tell(" (", &index);
    for name in names {
        out.word(name)
    }
    out.push(')')
}

/// The source that stands under a name after two were put there, and what stands there when it is removed.
pub(crate) fn standing(alloc: Global, first: &str, second: &str, out: &mut Report) {
    let mut templates = CompiledTemplates::new(alloc);
    out.done(put(alloc, &mut templates, first));
    out.done(put(alloc, &mut templates, second));
    write_standing(&templates, out);
    templates.remove(NAME);
    out.push(' ');
    write_standing(&templates, out)
}

fn put<'source>(
    alloc: Global,
    templates: &mut CompiledTemplates<'source>,
    source: &'source str,
) -> Result<(), Error> {
    match compiled(alloc, source, false) {
        Ok(template) => templates.insert(alloc, template),
        Err(error) => Err(error),
    }
}

fn write_standing(templates: &CompiledTemplates<'_>, out: &mut Report) {
    match templates.get(NAME) {
        Some(template) => out.tell("", &template.source()),
        None => out.push('-'),
    }
}
