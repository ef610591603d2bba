//! Texts with their trees, as rows. Each line of standard input is a template in JSON, under the default syntax; or an
//! object with `source` and the entries of a syntax; or an object with `expression`. It is written as it stands, then
//! ` = `, then the tree in a plain form, or the kind of the refusal and its place, as ` at name:line:column`. A line that
//! begins with `#` is a heading. Where an object has an entry `places`, the place of each node stands behind its form, as
//! `@line:column:offset-line:column:offset`.
//!
//! Where an object with `expression` has an entry `ask`, what that asks for is told in place of the tree:
//!
//! - `words`: the words for it; `callee`: what it calls, if it is a call.
//!
//! An object with `repeat`, an array of texts, each with a number, gives how many statements the text has that repeats
//! each so many times.
//!
//! The stored run is the table of the cases of the grammar: texts with their trees or refusals, written from the
//! language's description before the parser was read; texts with the places of their nodes, written from the rule of
//! places: a node goes from its first token to its last; and what else is asked, with answers that were written by hand.
//! To add a case, write its line into `stdout`, and what stands before the last ` = ` into `stdin`.
//! The forms:
//!
//! - a template or a body is `[..]`, a text of it `".."`; `-` is what is left out;
//! - expressions: names and literals as they stand; `(attr e name)`, `(item e key)`, `(slice e start stop step)`,
//!   `(call e args)`, `(filter name e args)`, `(test name e args)`, `(neg e)`, `(not e)`, `(+ a b)` and so on,
//!   `(chain a (< b) (< c))`, `(cond test then else)`, `(list ..)`, `(tuple ..)`, `(map (key value) ..)`; arguments
//!   `(= name e)`, `(splat e)`, `(kwsplat e)`;
//! - statements: `(print e)`, `(if e [..] [..])`, `(for target iter filter recursive [..] [..])`,
//!   `(with (target e) .. [..])`, `(set target e)`, `(set-block target filters [..])`, `(autoescape e [..])`,
//!   `(filter-block filters [..])`, `(block name required [..])`, `(import e target)`, `(from e (name alias) ..)`,
//!   `(extends e)`, `(include e ignore)`, `(macro name [args] [defaults] [..])`,
//!   `(call-block (call ..) (macro caller ..))`, `(do (call ..))`, `break`, `continue`.
#![tactic(auto)]

mod expressions;
mod forms;
mod leaves;
mod questions;
mod statements;
mod syntax;

use crate::expressions::expression;
use crate::forms::Form;
use crate::questions::{callee, statement_count};
use crate::statements::statement;
use crate::syntax::syntax_of;
use serde_json::{Map, Value as Json};
use std::alloc::Global;
use std::io;
use template_compiler_sources::Parser;
use template_compiler_syntax::SyntaxConfig;
use template_compiler_tree::Expr;
use template_compiler_tree_statements::Stmt;
use template_values_errors::{Error, ErrorKind};

// How many levels of a tree are printed; a deeper one is told as `TooLarge`.
const LEVELS: u32 = 4000;

// The name of each source.
const NAME: &str = "<string>";

// What is asked of a template: its form, or how many statements it has.
#[derive(Clone, Copy)]
enum Asked {
    Form,
    Count,
}

fn main(rt: HostRuntime) -> io::Result<()> {
    for line in rt.lines(rt.alloc()) {
        write_line(&rt, line?.as_str())?;
    }
    Ok(())
}

fn write_line(rt: &HostRuntime, line: &str) -> io::Result<()> {
    if line.starts_with('#') || line.is_empty() {
        println!(rt; "{line}")
    } else {
        write_answer(rt, line, &answer(rt.alloc(), line))
    }
}

fn write_answer(rt: &HostRuntime, line: &str, answer: &Form) -> io::Result<()> {
    match answer.refused {
        None => println!(rt; "{line} = {}", answer.text),
        Some(kind) => println!(rt; "{line} = {}{}", kind.name(), answer.places),
    }
}

// What comes of the JSON in a line.
fn answer(alloc: Global, line: &str) -> Form {
    let mut out = Form::new(alloc);
    match &Json::from_str(alloc, line) {
        Ok(Json::String(source)) => about_template(alloc, source.as_str(), Asked::Form, &mut out),
        Ok(Json::Object(entries)) => about_entries(alloc, entries, &mut out),
        Err(error) if error.is_memory() => out.refuse(ErrorKind::OutOfMemory),
        _ => out.refuse(ErrorKind::SyntaxError),
    }
    out
}

fn about_entries(alloc: Global, entries: &Map<String, Json>, out: &mut Form) {
    out.with_places = entries.get("places").is_some();
    match (text_in(entries, "source"), text_in(entries, "expression")) {
        (Some(source), _) => about_source(alloc, source, entries, out),
        (None, Some(source)) => {
            let mut parser = Parser::new(alloc, source, NAME, SyntaxConfig::new());
            about_expression(&mut parser, text_in(entries, "ask"), out)
        }
        (None, None) => about_texts(alloc, entries, out),
    }
}

fn text_in<'line>(entries: &'line Map<String, Json>, name: &str) -> Option<&'line str> {
    match entries.get(name) {
        Some(Json::String(text)) => Some(text.as_str()),
        _ => None,
    }
}

// What comes of a template under a syntax of its own.
fn about_source(alloc: Global, source: &str, entries: &Map<String, Json>, out: &mut Form) {
    match syntax_of(alloc, entries) {
        Ok(syntax) => {
            let mut parser = Parser::new(alloc, source, NAME, syntax);
            about_parsed(&mut parser, Asked::Form, out)
        }
        Err(error) => out.refuse(error.kind()),
    }
}

// What comes of a template under the default syntax.
fn about_template(alloc: Global, source: &str, asked: Asked, out: &mut Form) {
    let mut parser = Parser::new(alloc, source, NAME, SyntaxConfig::new());
    about_parsed(&mut parser, asked, out)
}

fn about_parsed(parser: &mut Parser<'_>, asked: Asked, out: &mut Form) {
    about_tree(&parser.parse(), asked, out)
}

fn about_tree(read: &Result<Stmt<'_>, Error>, asked: Asked, out: &mut Form) {
    match (read, asked) {
        (Ok(tree), Asked::Form) => statement(tree, out, LEVELS),
        (Ok(tree), Asked::Count) => statement_count(tree, out),
        (Err(error), _) => out.refuse_source(error),
    }
}

fn about_expression(parser: &mut Parser<'_>, ask: Option<&str>, out: &mut Form) {
    about_expr(&parser.parse_standalone_expr(), ask, out)
}

fn about_expr(read: &Result<Expr<'_>, Error>, ask: Option<&str>, out: &mut Form) {
    match (read, ask) {
        (Ok(expr), None) => expression(expr, out, LEVELS),
        (Ok(expr), Some("words")) => out.push_str(expr.description()),
        (Ok(expr), Some("callee")) => callee(expr, out),
        (Ok(_), Some(_)) => out.refuse(ErrorKind::SyntaxError),
        (Err(error), _) => out.refuse_source(error),
    }
}

// How many statements the text has that repeats each text so many times.
fn about_texts(alloc: Global, entries: &Map<String, Json>, out: &mut Form) {
    let mut source = String::new(alloc);
    match entries.get("repeat") {
        Some(Json::Array(parts)) => push_parts(parts.as_slice(), &mut source, out),
        _ => out.refuse(ErrorKind::SyntaxError),
    }
    about_template(alloc, source.as_str(), Asked::Count, out)
}

fn push_parts(parts: &[Json], source: &mut String, out: &mut Form) {
    for part in parts {
        match part {
            Json::Array(pair) => push_pair(pair.as_slice(), source, out),
            _ => out.refuse(ErrorKind::SyntaxError),
        }
    }
}

fn push_pair(pair: &[Json], source: &mut String, out: &mut Form) {
    match pair {
        [Json::String(text), times] => {
            for _ in 0..times.as_u64().unwrap_or(0) {
                let pushed = source.push_str(text.as_str());
                out.note(pushed)
            }
        }
        _ => out.refuse(ErrorKind::SyntaxError),
    }
}
