//! The tokens of a text, one after another.
use crate::NAME;
use crate::report::Report;
use std::alloc::Global;
use template_compiler_scanner::scan_token;
use template_compiler_syntax::SyntaxConfig;
use template_compiler_tokenizer::{TokenStream, Tokenizer};
use template_compiler_tokens::{Place, Token, Tokens};
use template_compiler_tree::Span;
use template_values_errors::ErrorKind;

/// The tokens of a source, and the refusal that ends them.
pub(crate) fn tokens_of(alloc: Global, source: &str, syntax: SyntaxConfig, out: &mut Report) {
    let mut tokenizer = Tokenizer::new(alloc, source, NAME, syntax);
    write_tokens(&mut tokenizer, source, out)
}

fn write_tokens(tokenizer: &mut Tokenizer<'_>, source: &str, out: &mut Report) {
    out.push_str("(tokens");
    for _ in 0..source.len() + 2 {
        if !write_next(tokenizer, out) {
            return out.push(')');
        }
    }
    out.refuse(ErrorKind::TooLarge)
}

// The next token, and whether there was one.
fn write_next(tokenizer: &mut Tokenizer<'_>, out: &mut Report) -> bool {
    match tokenizer.next_token() {
        Ok(Some((token, span))) => write_token(&token, span, out),
        Ok(None) => false,
        Err(error) => {
            out.error(" ! ", &error);
            false
        }
    }
}

fn write_token(token: &Token, span: Span, out: &mut Report) -> bool {
    out.tell(" ", token);
    out.place(span);
    true
}

/// The same as a stream shows them before it passes them, behind the name and the text of what it reads.
pub(crate) fn streamed_tokens(alloc: Global, source: &str, syntax: SyntaxConfig, out: &mut Report) {
    let tokenizer = Tokenizer::new(alloc, source, NAME, syntax);
    write_reader(&tokenizer, out);
    let mut stream = TokenStream::new(tokenizer);
    write_stream(&mut stream, source, out)
}

fn write_reader(tokenizer: &Tokenizer<'_>, out: &mut Report) {
    out.push_str("(stream");
    out.word(tokenizer.filename());
    out.tell(" ", &tokenizer.source())
}

fn write_stream(stream: &mut TokenStream<'_>, source: &str, out: &mut Report) {
    for _ in 0..source.len() + 2 {
        if !write_current(stream, out) {
            return out.push(')');
        }
        if let Err(error) = stream.next() {
            return out.refuse(error.kind());
        }
    }
    out.refuse(ErrorKind::TooLarge)
}

// The token that a stream shows, and whether there is one.
fn write_current(stream: &TokenStream<'_>, out: &mut Report) -> bool {
    match stream.current() {
        Ok(Some((token, span))) => write_token(token, span, out),
        Ok(None) => false,
        Err(error) => {
            out.error(" ! ", &error);
            false
        }
    }
}

/// The token that a text begins with, and how many bytes it takes.
pub(crate) fn first_token(alloc: Global, text: &str, out: &mut Report) {
    match &scan_token(alloc, text) {
        Ok((token, width)) => {
            out.tell("", token);
            out.tell(" ", width)
        }
        Err(kind) => out.refuse(*kind),
    }
}

/// The place of a text behind another one.
pub(crate) fn place_behind(before: &str, text: &str, out: &mut Report) {
    let start = Place::start().after(before);
    out.place(start.to(start.after(text)))
}

/// The same of a text that stands so many times.
pub(crate) fn place_of_many(
    alloc: Global,
    before: &str,
    text: &str,
    times: usize,
    out: &mut Report,
) {
    match text.repeat(alloc, times) {
        Ok(many) => place_behind(before, many.as_str(), out),
        Err(_) => out.refuse(ErrorKind::OutOfMemory),
    }
}
