//! Instructions that calls of a generator make, one behind the other.
ghost use Rattle.template_compiler_tree_statements.specs.View.{statement_of};
ghost use Rattle.template_compiler_generator.specs.Alone.{CanStand};

use crate::NAME;
use crate::code::write_instructions;
use crate::listed::{added, line_in, span_from, write_places};
use crate::numbers::write_numbers;
use crate::report::{Report, unreadable};
use serde_json::{Map, Value as Json};
use std::alloc::Global;
use std::borrow::CowStr;
use template_compiler_code::{Instruction, Instructions};
use template_compiler_generator::CodeGenerator;
use template_compiler_tree::{Expr, Span};
use template_compiler_tree_statements::Stmt;
use template_values_errors::{Error, ErrorKind};

/// How many instructions the calls make, the hint of room for them, where those at some places come from, and all of
/// them, where no block is open. The tree is what the call `template` compiles.
pub(crate) fn generated<'line>(
    alloc: Global,
    tree: &Stmt<'line>,
    entries: &'line Map<String, Json>,
    out: &mut Report,
)
    requires { CanStand (statement_of tree.now) }
{
    match (entries.get("calls"), entries.get("places")) {
        (Some(Json::Array(calls)), Some(Json::Array(places))) => {
            let ask_numbers = entries.get("numbers").is_some();
            generate(
                alloc,
                tree,
                calls.as_slice(),
                places.as_slice(),
                ask_numbers,
                out,
            )
        }
        _ => out.refuse(ErrorKind::SyntaxError),
    }
}

fn generate<'line>(
    alloc: Global,
    tree: &Stmt<'line>,
    calls: &'line [Json],
    places: &[Json],
    ask_numbers: bool,
    out: &mut Report,
)
    requires { CanStand (statement_of tree.now) }
{
    let mut generator = CodeGenerator::new(alloc, NAME, "");
    make_all(&mut generator, tree, calls, out);
    if generator.is_closed() {
        match generator.finish() {
            Ok(code) => {
                write_places(&code, places, out);
                write_generated(&code, ask_numbers, out)
            }
            Err(error) => out.refuse(error.kind()),
        }
    } else {
        out.refuse(ErrorKind::SyntaxError)
    }
}

// The instructions, or the numbers of filters and tests among them.
fn write_generated(code: &Instructions<'_>, ask_numbers: bool, out: &mut Report) {
    if ask_numbers {
        write_numbers(code, out)
    } else {
        write_instructions(code, out)
    }
}

fn make_all<'line>(
    generator: &mut CodeGenerator<'line>,
    tree: &Stmt<'line>,
    calls: &'line [Json],
    out: &mut Report,
)
    requires { CanStand (statement_of tree.now) }
{
    for call in calls {
        if let Err(error) = make(generator, tree, call) {
            return out.refuse(error.kind());
        }
    }
    out.answer(&generator.next_instruction());
    out.answer(&generator.buffer_size_hint())
}

// A call by its name, alone or with a text or a line.
fn make<'line>(
    generator: &mut CodeGenerator<'line>,
    tree: &Stmt<'line>,
    call: &'line Json,
) -> Result<(), Error>
    requires { CanStand (statement_of tree.now) }
{
    match call {
        Json::String(name) => make_named(generator, tree, name.as_str()),
        Json::Array(parts) => make_of_parts(generator, parts.as_slice()),
        _ => unreadable(),
    }
}

fn make_named<'line>(
    generator: &mut CodeGenerator<'line>,
    tree: &Stmt<'line>,
    name: &str,
) -> Result<(), Error>
    requires { CanStand (statement_of tree.now) }
{
    match name {
        "template" => generator.compile_stmt(tree),
        _ => make_plain(generator, name),
    }
}

fn make_plain(generator: &mut CodeGenerator<'_>, name: &str) -> Result<(), Error> {
    match name {
        "emit" => add(generator, Instruction::Emit),
        "with" => add(generator, Instruction::PushWith),
        "end_frame" => add(generator, Instruction::PopFrame),
        "if" => generator.start_if(),
        "loop" => generator.start_for_loop(true, false),
        "choice" => generator.start_sc_bool(),
        "end_span" => {
            generator.pop_span();
            Ok(())
        }
        _ => make_inside(generator, name),
    }
}

fn add<'line>(
    generator: &mut CodeGenerator<'line>,
    instruction: Instruction<'line>,
) -> Result<(), Error> {
    added(generator.add(instruction))
}

// A call that needs an open block.
fn make_inside(generator: &mut CodeGenerator<'_>, name: &str) -> Result<(), Error> {
    match name {
        "else" if generator.is_in_branch() => generator.start_else(),
        "end_if" if generator.is_in_branch() => {
            generator.end_if();
            Ok(())
        }
        "end_loop" if generator.is_in_loop() => generator.end_for_loop(true),
        "and" if generator.is_in_choice() => generator.sc_bool(true),
        "or" if generator.is_in_choice() => generator.sc_bool(false),
        "end_choice" if generator.is_in_choice() => {
            generator.end_sc_bool();
            Ok(())
        }
        _ => unreadable(),
    }
}

fn make_of_parts<'line>(
    generator: &mut CodeGenerator<'line>,
    parts: &'line [Json],
) -> Result<(), Error> {
    match parts {
        [Json::String(name), Json::String(text)] => {
            make_of_text(generator, name.as_str(), text.as_str())
        }
        [Json::String(name), line] => make_at(generator, name.as_str(), line_in(line)),
        _ => unreadable(),
    }
}

// A call with a text, which is a name.
fn make_of_text<'line>(
    generator: &mut CodeGenerator<'line>,
    call: &str,
    name: &'line str,
) -> Result<(), Error> {
    let variable = Expr::variable(name, Span::default());
    match call {
        "lookup" => add(generator, Instruction::Lookup(CowStr::Borrowed(name))),
        "expression" => generator.compile_expr(&variable),
        "target" => generator.compile_assignment(&variable),
        _ => unreadable(),
    }
}

// A call with a line, or with a span that starts there.
fn make_at(generator: &mut CodeGenerator<'_>, name: &str, line: u16) -> Result<(), Error> {
    match name {
        "line" => generator.set_line(line),
        "line_of_span" => generator.set_line_from_span(span_from(line)),
        "span" => return generator.push_span(span_from(line)),
        "emit" => return added(generator.add_with_span(Instruction::Emit, span_from(line))),
        _ => return unreadable(),
    }
    Ok(())
}
