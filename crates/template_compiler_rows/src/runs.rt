//! Where the instructions of a template come from.
use crate::report::Report;
use template_compiler_code::Instructions;

/// The runs of instructions that come from one place: its line, how many they are, and the text at its span.
pub(crate) fn write_runs(source: &str, code: &Instructions<'_>, out: &mut Report) {
    let count = code.len() as u32;
    let mut run: u32 = 0;
    for index in 0..count {
        run = run.saturating_add(1);
        if !goes_on(code, index) {
            write_run(source, code, index, run, out);
            run = 0;
        }
    }
}

// Whether the next instruction comes from the same line and the same span.
fn goes_on(code: &Instructions<'_>, index: u32) -> bool {
    match index.checked_add(1) {
        Some(next) if (next as usize) < code.len() => {
            code.get_line(index) == code.get_line(next)
                && code.get_span(index) == code.get_span(next)
        }
        _ => false,
    }
}

fn write_run(source: &str, code: &Instructions<'_>, index: u32, run: u32, out: &mut Report) {
    out.tell(" (", &code.get_line(index).unwrap_or(0));
    out.tell(" ", &run);
    out.push(' ');
    if let Some(span) = code.get_span(index) {
        let at = span.start_offset as usize..span.end_offset as usize;
        out.tell("", &source.get(at).unwrap_or("?"))
    }
    out.push(')')
}
