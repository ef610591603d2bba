//! The works: requests with long sources, and with many statements, templates, names, definitions, rounds and includes.
use crate::report::Report;
use std::alloc::{AllocError, Global};
use template_program_run::{Command, Request};
use template_values_errors::{ErrorKind, UndefinedBehavior};

// The name of the main template, but where a work names another.
const MAIN: &str = "t.txt";

/// How deep a render may be where nothing is told.
pub(crate) const DEFAULT_LIMIT: usize = 500;

const MANY: usize = 1000;

// How many is many, for items.
const ITEMS: usize = 100_000;

/// A request at size, and what it is to write.
#[derive(Drop)]
pub(crate) struct Work {
    pub(crate) templates: Vec<(String, String)>,
    pub(crate) request: Request,
    /// The JSON of the context; empty where there is none.
    pub(crate) context: String,
    pub(crate) wanted: String,
    /// Whether the main template is to be refused as none of the grammar.
    pub(crate) is_refused: bool,
}

impl Work {
    /// A render without templates, which is to write nothing.
    pub(crate) fn new(alloc: Global) -> Result<Work, AllocError> {
        Ok(Work {
            request: render_of(String::from_str(alloc, MAIN)?, Vec::new(alloc)),
            templates: Vec::new(alloc),
            context: String::new(alloc),
            wanted: String::new(alloc),
            is_refused: false,
        })
    }

    // Adds the main template, of that source.
    fn add_main(&mut self, source: String, out: &mut Report) {
        let name = out.made(String::from_str(*source.allocator(), MAIN));
        if self.templates.push((name, source)).is_err() {
            out.refuse(ErrorKind::OutOfMemory)
        }
    }
}

fn render_of(main: String, texts: Vec<(String, String)>) -> Request {
    Request {
        main,
        texts,
        fuel: None,
        limit: DEFAULT_LIMIT,
        undefined: UndefinedBehavior::Lenient,
        command: Command::Render,
    }
}

// Adds a name with a text, as templates and definitions have them.
fn add(alloc: Global, name: &str, text: &str, pairs: &mut Vec<(String, String)>, out: &mut Report) {
    let name = out.made(String::from_str(alloc, name));
    let text = out.made(String::from_str(alloc, text));
    if pairs.push((name, text)).is_err() {
        out.refuse(ErrorKind::OutOfMemory)
    }
}

/// A source without markers gives itself.
pub(crate) fn one_text(alloc: Global, text: &str, times: usize, work: &mut Work, out: &mut Report) {
    work.add_main(out.made(text.repeat(alloc, times)), out);
    work.wanted = out.made(text.repeat(alloc, times));
}

/// Texts and prints of one name, in turn.
pub(crate) fn many_prints(alloc: Global, work: &mut Work, out: &mut Report) {
    work.add_main(out.made("line {{ x }}".repeat(alloc, 5000)), out);
    add(alloc, "x", "é", &mut work.request.texts, out);
    work.wanted = out.made("line é".repeat(alloc, 5000));
}

/// Templates that each write their own name, of which the last one is rendered.
pub(crate) fn many_templates(alloc: Global, work: &mut Work, out: &mut Report) {
    for number in 0..MANY {
        add_named_template(alloc, number, work, out)
    }
    work.request.main = out.made(String::from_str(alloc, "t999.txt"));
    work.wanted = out.made(String::from_str(alloc, "This is t999.txt"));
}

fn add_named_template(alloc: Global, number: usize, work: &mut Work, out: &mut Report) {
    let name = out.made(format!(in alloc; "t{number}.txt"));
    let source = out.made(format!(in alloc; "This is {name}"));
    if work.templates.push((name, source)).is_err() {
        out.refuse(ErrorKind::OutOfMemory)
    }
}

/// A template that prints a thousand names, which are told.
pub(crate) fn many_names(alloc: Global, work: &mut Work, out: &mut Report) {
    work.add_main(printed_names(alloc, out), out);
    work.request.command = Command::Names;
    tell_names(&mut work.wanted, out)
}

fn printed_names(alloc: Global, out: &mut Report) -> String {
    let mut source = String::new(alloc);
    for number in 0..MANY {
        let written = write!(source, "{{{{ n{:03} }}}}", number);
        out.note(written)
    }
    source
}

fn tell_names(told: &mut String, out: &mut Report) {
    out.note(told.push_str("caller\nloop\n"));
    for number in 0..MANY {
        let written = write!(told, "n{:03}\n", number);
        out.note(written)
    }
    out.note(told.push_str("self\nsuper\n"))
}

/// A template that prints a thousand names, of which each has a definition.
pub(crate) fn many_definitions(alloc: Global, work: &mut Work, out: &mut Report) {
    work.add_main(printed_names(alloc, out), out);
    for number in 0..MANY {
        add_definition(alloc, number, work, out)
    }
}

fn add_definition(alloc: Global, number: usize, work: &mut Work, out: &mut Report) {
    let name = out.made(format!(in alloc; "n{:03}", number));
    let text = out.made(format!(in alloc; "<{number}>"));
    out.note(work.wanted.push_str(text.as_str()));
    if work.request.texts.push((name, text)).is_err() {
        out.refuse(ErrorKind::OutOfMemory)
    }
}

// The context `{"x": [0, 0, ..]}`.
fn zeros(alloc: Global, count: usize, out: &mut Report) -> String {
    let zeros = out.made("0,".repeat(alloc, count.saturating_sub(1)));
    out.made(format!(in alloc; "{{\"x\": [{zeros}0]}}"))
}

// A list of zeros, as it prints.
fn printed_zeros(alloc: Global, out: &mut Report) -> String {
    let zeros = out.made("0, ".repeat(alloc, ITEMS - 1));
    out.made(format!(in alloc; "[{zeros}0]"))
}

/// A print of a list with many items, which the context has.
pub(crate) fn many_items(alloc: Global, work: &mut Work, out: &mut Report) {
    add(alloc, MAIN, "{{ x }}", &mut work.templates, out);
    work.context = zeros(alloc, ITEMS, out);
    work.wanted = printed_zeros(alloc, out);
}

/// A loop over a list with many items.
pub(crate) fn many_rounds(alloc: Global, work: &mut Work, out: &mut Report) {
    let source = "{% for y in x %}{{ y + 1 }},{% endfor %}";
    add(alloc, MAIN, source, &mut work.templates, out);
    work.context = zeros(alloc, ITEMS, out);
    work.wanted = out.made("1,".repeat(alloc, ITEMS));
}

/// A loop that includes another template in each round.
pub(crate) fn many_includes(alloc: Global, work: &mut Work, out: &mut Report) {
    let source = "{% for y in x %}{% include 'part' %}{% endfor %}";
    add(alloc, MAIN, source, &mut work.templates, out);
    add(alloc, "part", "<{{ y }}>", &mut work.templates, out);
    work.context = zeros(alloc, MANY, out);
    work.wanted = out.made("<0>".repeat(alloc, MANY));
}

/// Braces alone begin a print and never end it, so the source is refused, and nothing is written.
pub(crate) fn many_braces(alloc: Global, work: &mut Work, out: &mut Report) {
    work.is_refused = true;
    work.add_main(out.made("{".repeat(alloc, 1_000_000)), out)
}

/// A list of many parts, each of them a name.
pub(crate) fn many_parts(alloc: Global, work: &mut Work, out: &mut Report) {
    let parts = out.made("y, ".repeat(alloc, ITEMS - 1));
    work.add_main(out.made(format!(in alloc; "{{{{ [{parts}y] }}}}")), out);
    work.context = out.made(String::from_str(alloc, "{\"y\": 0}"));
    work.wanted = printed_zeros(alloc, out);
}

/// A print of a name of ten thousand letters.
pub(crate) fn long_name(alloc: Global, work: &mut Work, out: &mut Report) {
    let name = out.made("n".repeat(alloc, 10_000));
    work.add_main(out.made(format!(in alloc; "{{{{ {name} }}}}")), out);
    work.context = out.made(format!(in alloc; "{{\"{name}\": 1}}"));
    work.wanted = out.made(String::from_str(alloc, "1"));
}

/// A loop over a list with many items, ten times in a loop.
pub(crate) fn many_rounds_in_rounds(alloc: Global, work: &mut Work, out: &mut Report) {
    let source =
        "{% for z in [0, 1, 2, 3, 4, 5, 6, 7, 8, 9] %}{% for y in x %}{{ z }}{% endfor %}{% endfor %}";
    add(alloc, MAIN, source, &mut work.templates, out);
    work.context = zeros(alloc, ITEMS, out);
    for digit in "0123456789".chars() {
        push_rounds(digit, work, out)
    }
}

fn push_rounds(digit: char, work: &mut Work, out: &mut Report) {
    for _ in 0..ITEMS {
        out.note(work.wanted.push(digit))
    }
}
