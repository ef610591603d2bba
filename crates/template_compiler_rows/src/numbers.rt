//! The numbers of filters and tests.
use crate::report::Report;
use template_compiler_code::{Instruction, Instructions, LocalId};

/// The names of the filters and of the tests among the instructions, in order of place, each with its number.
pub(crate) fn write_numbers(code: &Instructions<'_>, out: &mut Report) {
    for index in 0..code.len() as u32 {
        match code.get(index) {
            Some(Instruction::ApplyFilter(name, _, number)) => {
                write_number(" (filter", name.as_str(), *number, out)
            }
            Some(Instruction::PerformTest(name, _, number)) => {
                write_number(" (test", name.as_str(), *number, out)
            }
            _ => {}
        }
    }
}

fn write_number(head: &str, name: &str, number: LocalId, out: &mut Report) {
    out.push_str(head);
    out.word(name);
    out.tell(" ", &number);
    out.push(')')
}
