//! Values that are taken from operands.
use crate::report::Report;
use serde_json::Value as Json;
use std::alloc::Global;
use template_machine_operands::Operands;
use template_values_core::{Content, Entry, Value};
use template_values_errors::{Error, ErrorKind};

/// What is taken from so many numbers, so many values or so many pairs, and then the number on top; each with a `;`
/// behind it.
pub(crate) fn about_operands(alloc: Global, ask: &str, counts: &[Json], out: &mut Report) {
    match counts {
        [held, wanted] => {
            let (held, wanted) = (held.as_u64().unwrap_or(0), wanted.as_u64().unwrap_or(0));
            about_numbers(alloc, ask, held, usize::try_from(wanted).unwrap_or(0), out)
        }
        _ => out.refuse(ErrorKind::SyntaxError),
    }
}

fn about_numbers(alloc: Global, ask: &str, held: u64, wanted: usize, out: &mut Report) {
    let mut operands = Operands::new(alloc);
    out.done(push_numbers(&mut operands, held));
    match ask {
        "pairs" => write_entries(&operands.take_pairs(alloc, wanted), out),
        _ => write_values(&operands.take_many(wanted), out),
    }
    take_top(&mut operands, out)
}

// The numbers from 0 on, so many, the last one on top.
fn push_numbers(operands: &mut Operands, count: u64) -> Result<(), Error> {
    for number in 0..count {
        operands.push(Value::from_int(i128::from(number)))?;
    }
    Ok(())
}

fn write_values(values: &Result<Vec<Value>, Error>, out: &mut Report) {
    match values {
        Ok(values) => {
            for value in values {
                write_number(value, out)
            }
        }
        Err(error) => out.refuse(error.kind()),
    }
}

fn write_entries(entries: &Result<Vec<Entry>, Error>, out: &mut Report) {
    match entries {
        Ok(entries) => {
            for entry in entries {
                write_number(&entry.key, out);
                write_number(&entry.value, out)
            }
        }
        Err(error) => out.refuse(error.kind()),
    }
}

fn take_top(operands: &mut Operands, out: &mut Report) {
    if let Ok(value) = operands.take() {
        write_number(&value, out);
        drop(value)
    }
}

fn write_number(value: &Value, out: &mut Report) {
    match value.content() {
        Content::Int(number) => out.answer(&number),
        _ => out.refuse(ErrorKind::SyntaxError),
    }
}
