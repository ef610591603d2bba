//! Large values, and what tells of a large text without writing it.
use crate::constructors::{entry, list_of_one, put};
use std::alloc::Global;
use template_values::{Error, Value};

/// The list of the numbers from 0 to below the count.
pub(crate) fn numbers(alloc: Global, count: usize) -> Result<Value, Error> {
    let mut numbers = Vec::new(alloc);
    for number in 0..count {
        numbers.push(int(number))?;
    }
    Value::from_list(alloc, numbers)
}

/// The map of so many names, each with its number, given from the last to the first.
pub(crate) fn numbered_names(alloc: Global, count: usize) -> Result<Value, Error> {
    let mut entries = Vec::new(alloc);
    for number in (0..count).rev() {
        let name = format!(in alloc; "name {number}")?;
        put(&mut entries, entry(Value::from_text(name), Ok(int(number))))?;
    }
    Value::from_map(alloc, entries)
}

/// So many lists, one in the other.
pub(crate) fn nested(alloc: Global, count: usize) -> Result<Value, Error> {
    let mut value = Ok(Value::none());
    for _ in 0..count {
        value = list_of_one(alloc, value);
    }
    value
}

/// The bytes from 0 to 255 so many times over.
pub(crate) fn octets(alloc: Global, count: usize) -> Result<Value, Error> {
    let mut bytes = Vec::new(alloc);
    for _ in 0..count {
        for byte in 0..=u8::MAX {
            bytes.push(byte)?;
        }
    }
    Value::from_bytes(alloc, bytes)
}

/// How many bytes a text has, and their Adler-32 checksum.
pub(crate) fn digest(alloc: Global, text: &str) -> Result<Value, Error> {
    let sum = Value::from_int(i128::from(checksum(text.as_bytes())));
    Value::from_tuple(alloc, vec![in alloc; int(text.len()), sum]?)
}

// The sum of the bytes and 1, and the sum of all those sums, each modulo the largest prime below 2^16.
fn checksum(bytes: &[u8]) -> u32 {
    let mut sum = 1u32;
    let mut sums = 0u32;
    for byte in bytes {
        sum = (sum % 65521 + u32::from(*byte)) % 65521;
        sums = (sums % 65521 + sum) % 65521;
    }
    (sums % 65521) * 65536 + sum % 65521
}

fn int(number: usize) -> Value {
    Value::from_int(number as i128)
}
