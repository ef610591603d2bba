//! The program at size. Works make their requests, and what these are to write.
use crate::report::Report;
use crate::works::{
    Work, long_name, many_braces, many_definitions, many_includes, many_items, many_names,
    many_parts, many_prints, many_rounds, many_rounds_in_rounds, many_templates, one_text,
};
use std::alloc::Global;
use template_machine_surroundings::StateIds;
use template_program_run::{Outcome, run};
use template_values_errors::ErrorKind;

/// How many bytes come out of the work of that name, and whether they are the right ones.
pub(crate) fn about_size(alloc: Global, name: &str, out: &mut Report) {
    match Work::new(alloc) {
        Ok(mut work) => about_work(alloc, name, &mut work, out),
        Err(_refused) => out.refuse(ErrorKind::OutOfMemory),
    }
}

fn about_work(alloc: Global, name: &str, work: &mut Work, out: &mut Report) {
    make(alloc, name, work, out);
    let mut written = String::new(alloc);
    perform(alloc, work, &mut written, out);
    tell(written.as_bytes(), work.wanted.as_bytes(), out)
}

fn tell(given: &[u8], wanted: &[u8], out: &mut Report) {
    out.tell("", &given.len());
    out.push_str(if given == wanted {
        " bytes, right"
    } else {
        " bytes, wrong"
    })
}

fn make(alloc: Global, name: &str, work: &mut Work, out: &mut Report) {
    match name {
        "10000 statements" => many_prints(alloc, work, out),
        "1000 templates" => many_templates(alloc, work, out),
        "1000 names" => many_names(alloc, work, out),
        "1000 definitions" => many_definitions(alloc, work, out),
        "100000 items" => many_items(alloc, work, out),
        "100000 rounds" => many_rounds(alloc, work, out),
        "1000 includes" => many_includes(alloc, work, out),
        _ => make_long(alloc, name, work, out),
    }
}

fn make_long(alloc: Global, name: &str, work: &mut Work, out: &mut Report) {
    match name {
        // Ten megabytes: 16 bytes, over and over.
        "a template without markers" => one_text(alloc, "The quick fox.é", 655360, work, out),
        "1000000 letters" => one_text(alloc, "a", 1_000_000, work, out),
        "1000000 braces" => many_braces(alloc, work, out),
        "a list of 100000 parts" => many_parts(alloc, work, out),
        "a name of 10000 letters" => long_name(alloc, work, out),
        "10 times 100000 rounds" => many_rounds_in_rounds(alloc, work, out),
        _ => out.refuse(ErrorKind::SyntaxError),
    }
}

// Does what is asked, and writes what comes of it.
fn perform(alloc: Global, work: &Work, written: &mut String, out: &mut Report) {
    match &outcome_of(alloc, work, written) {
        Outcome::Done => {}
        Outcome::Render(error) | Outcome::Context(error) | Outcome::Template(error) => {
            if !work.is_refused || error.kind() != ErrorKind::SyntaxError {
                out.refuse(error.kind())
            }
        }
    }
}

fn outcome_of(alloc: Global, work: &Work, written: &mut String) -> Outcome {
    let context = if work.context.is_empty() {
        None
    } else {
        Some(work.context.as_bytes())
    };
    let mut ids = StateIds::new(0);
    let templates = work.templates.as_slice();
    run(alloc, &work.request, templates, context, &mut ids, written)
}
