//! The tasks of values.
use crate::calls::write_to;
use crate::constructors::{entry, put};
use crate::large::numbers;
use crate::report::Report;
use std::alloc::Global;
use std::hint::black_box;
use std::time::Instant;
use template_values::{AutoEscape, Entry, Error, ErrorKind, NoRecords, Value, add};

// 10 MB of text, as so many lines.
const LINE: &str =
    "The <quick> brown fox jumps over the lazy dog, and so it goes on & on for a long line.\n";

const LINES: usize = 115_000;

// 5 MB of markup, as so many pieces.
const DENSE: &str = "<>&\"'/";

const DENSE_TIMES: usize = 833_334;

const KEYS: u32 = 100_000;

const LOOK_UPS: u32 = 10_000_000;

const ADDITIONS: u32 = 10_000_000;

const COPIES: u32 = 1_000_000;

/// The time of the task of that name, in words; `SyntaxError` where there is no such task, or its work is not done.
pub(crate) fn about_time(rt: &HostRuntime, task: &str, out: &mut Report) {
    match task {
        "print" => write(rt, LINE, LINES, None, out),
        "escape-html" => write(rt, LINE, LINES, Some(AutoEscape::Html), out),
        "escape-dense" => write(rt, DENSE, DENSE_TIMES, Some(AutoEscape::Html), out),
        "escape-json" => write(rt, LINE, LINES, Some(AutoEscape::Json), out),
        "sort-map" => sort_map(rt, out),
        "look-up" => look_up(rt, out),
        "add" => add_up(rt, out),
        "copy" => copy(rt, out),
        _ => out.refuse(ErrorKind::SyntaxError),
    }
}

// The time since the start, where there was one and the work is done.
fn tell_time(rt: &HostRuntime, start: Option<Instant>, is_done: bool, out: &mut Report) {
    let time = match start {
        Some(start) if is_done => start.elapsed(rt).ok(),
        _ => None,
    };
    match time {
        Some(time) => {
            out.tell("", &time.as_micros());
            out.push_str(" microseconds")
        }
        None => out.refuse(ErrorKind::SyntaxError),
    }
}

// A text, so many times.
fn repeated(alloc: Global, text: &str, times: usize) -> Result<Value, Error> {
    Value::from_text(text.repeat(alloc, times)?)
}

// The same, as it prints or under an escape.
fn write(rt: &HostRuntime, text: &str, times: usize, escape: Option<AutoEscape>, out: &mut Report) {
    let value = out.or(repeated(rt.alloc(), text, times), Value::none());
    let mut text = String::new(rt.alloc());
    let start = Instant::now(rt).ok();
    let is_done = write_to(&value, escape, &NoRecords, &mut text).is_ok();
    tell_time(rt, start, is_done, out);
    black_box(text.as_str().len());
    drop(value)
}

// The keys in the order in which they are looked up, which is far from sorted.
fn names(alloc: Global) -> Result<Vec<String>, Error> {
    let mut names = Vec::new(alloc);
    for number in 0..KEYS {
        put(&mut names, name(alloc, number))?;
    }
    Ok(names)
}

// Of the numbers from 0 to `KEYS` each has a name.
fn name(alloc: Global, number: u32) -> Result<String, Error> {
    Ok(format!(in alloc; "key {}", (number % KEYS) * 7919 % KEYS)?)
}

// Each name with its place.
fn entries(alloc: Global, names: &[String]) -> Result<Vec<Entry>, Error> {
    let mut entries = Vec::new(alloc);
    for name in names {
        let place = Value::from_int(entries.len() as i128);
        let name = Value::from_str(alloc, name.as_str());
        put(&mut entries, entry(name, Ok(place)))?;
    }
    Ok(entries)
}

fn sort_map(rt: &HostRuntime, out: &mut Report) {
    let alloc = rt.alloc();
    let names = out.or(names(alloc), Vec::new(alloc));
    let entries = out.or(entries(alloc, names.as_slice()), Vec::new(alloc));
    let start = Instant::now(rt).ok();
    let map = Value::from_map(alloc, entries);
    tell_time(rt, start, black_box(map.is_ok()), out);
    drop(map)
}

fn look_up(rt: &HostRuntime, out: &mut Report) {
    let alloc = rt.alloc();
    let names = out.or(names(alloc), Vec::new(alloc));
    let entries = out.or(entries(alloc, names.as_slice()), Vec::new(alloc));
    let map = out.or(Value::from_map(alloc, entries), Value::none());
    look_up_in(rt, &map, names.as_slice(), out);
    drop(map)
}

fn look_up_in(rt: &HostRuntime, map: &Value, names: &[String], out: &mut Report) {
    let mut found = 0u32;
    let start = Instant::now(rt).ok();
    for _ in 0..LOOK_UPS / KEYS {
        for name in names {
            if map.value_at(name.as_str()).is_some() {
                found = found.wrapping_add(1);
            }
        }
    }
    tell_time(rt, start, found == LOOK_UPS, out)
}

fn add_up(rt: &HostRuntime, out: &mut Report) {
    let mut sum = Value::from_int(0);
    let one = Value::from_int(1);
    let start = Instant::now(rt).ok();
    let is_done = is_added_up(rt.alloc(), &mut sum, &one);
    tell_time(rt, start, is_done, out);
    drop(sum);
    drop(one)
}

// Adds so often, and tells whether that gives the sum.
fn is_added_up(alloc: Global, sum: &mut Value, one: &Value) -> bool {
    for _ in 0..ADDITIONS {
        match add(alloc, sum, one) {
            Ok(more) => *sum = more,
            Err(_refused) => return false,
        }
    }
    sum.as_int() == Some(i128::from(ADDITIONS))
}

fn copy(rt: &HostRuntime, out: &mut Report) {
    let list = out.or(numbers(rt.alloc(), KEYS as usize), Value::none());
    let start = Instant::now(rt).ok();
    let is_done = is_copied(&list);
    tell_time(rt, start, is_done, out);
    drop(list)
}

// Copies so often, and tells whether each copy has one level.
fn is_copied(list: &Value) -> bool {
    for _ in 0..COPIES {
        if !has_one_level(list.copy()) {
            return false;
        }
    }
    true
}

fn has_one_level(copy: Result<Value, Error>) -> bool {
    let levels = match &copy {
        Ok(copy) => copy.levels(),
        Err(_refused) => 0,
    };
    drop(copy);
    levels == 1
}
