//! What the stream of an expression's tokens answers to calls, one after another.
use crate::report::Report;
use serde_json::Value as Json;
use std::alloc::Global;
use template_compiler_sources::{error_of, read_expression_tokens};
use template_compiler_stream::{First, Level, TokenStream};
use template_compiler_tokens::Sign;
use template_values_errors::ErrorKind;

/// What each of the calls answers, with a `;` behind it, but for those that answer nothing.
pub(crate) fn answers_of_stream(alloc: Global, source: &str, calls: &[Json], out: &mut Report) {
    match read_expression_tokens(alloc, source) {
        Ok(mut stream) => call_all(&mut stream, calls, out),
        Err(refusal) => out.refuse(error_of(refusal).kind()),
    }
}

fn call_all(stream: &mut TokenStream<'_>, calls: &[Json], out: &mut Report) {
    for call in calls {
        call_one(stream, call, out)
    }
}

// A call by its name, or one that passes a word.
fn call_one(stream: &mut TokenStream<'_>, call: &Json, out: &mut Report) {
    match call {
        Json::String(name) => call_named(stream, name.as_str(), out),
        Json::Array(words) => match words.as_slice() {
            [Json::String(word)] => out.answer(&stream.skip_word(word.as_str())),
            _ => out.refuse(ErrorKind::SyntaxError),
        },
        _ => out.refuse(ErrorKind::SyntaxError),
    }
}

fn call_named(stream: &mut TokenStream<'_>, name: &str, out: &mut Report) {
    match name {
        "(" => out.answer(&stream.skip(Sign::ParenOpen)),
        ")" => out.answer(&stream.skip(Sign::ParenClose)),
        "begins_argument" => out.answer(&stream.begins_argument()),
        "closes" => out.answer(&stream.closes()),
        "dotted" => out.answer(&stream.skip_dotted()),
        "keyword" => out.answer(&stream.skip_keyword()),
        "factor" => out.answer(&stream.skip_operator(Level::Factors)),
        "term" => out.answer(&stream.skip_operator(Level::Terms)),
        "fault" => out.answer(&stream.fault()),
        "text" => write_text(stream, out),
        "take" => write_taken(&stream.take(), out),
        "advance" => stream.advance(),
        _ => out.refuse(ErrorKind::SyntaxError),
    }
}

// The text literal that is passed, where one stands next, before whether one does.
fn write_text(stream: &mut TokenStream<'_>, out: &mut Report) {
    match stream.skip_text(&mut out.text) {
        Ok(passed) => out.answer(&passed),
        Err(_refused) => out.refuse(ErrorKind::OutOfMemory),
    }
}

fn write_taken(taken: &First<'_>, out: &mut Report) {
    match taken {
        First::Token(token, _) => out.answer(token),
        First::End => out.answer(&"end"),
        First::Bad(fault) => out.answer(fault),
    }
}
