//! What values are made of.
use std::alloc::Global;
use template_values::{Entry, Error, ErrorKind, Value};

/// Puts behind the others what was made.
pub(crate) fn put<T: Drop>(items: &mut Vec<T>, item: Result<T, Error>) -> Result<(), Error> {
    Ok(items.push(item?)?)
}

/// The list of the one item that was made.
pub(crate) fn list_of_one(alloc: Global, item: Result<Value, Error>) -> Result<Value, Error> {
    let mut items = Vec::new(alloc);
    put(&mut items, item)?;
    Value::from_list(alloc, items)
}

/// Copies of the values.
pub(crate) fn copies(alloc: Global, values: &[Value]) -> Result<Vec<Value>, Error> {
    let mut copies = Vec::new(alloc);
    for value in values {
        put(&mut copies, value.copy())?;
    }
    Ok(copies)
}

/// The entries whose keys and values stand in turn.
pub(crate) fn entries(alloc: Global, values: &[Value]) -> Result<Vec<Entry>, Error> {
    let mut entries = Vec::new(alloc);
    for pair in values.chunks_exact(2) {
        if let [key, value] = pair {
            put(&mut entries, entry(key.copy(), value.copy()))?;
        }
    }
    Ok(entries)
}

/// The entry of a key and a value that were made.
pub(crate) fn entry(
    key: Result<Value, Error>,
    value: Result<Value, Error>,
) -> Result<Entry, Error> {
    let (key, value) = both(key, value)?;
    Ok(Entry { key, value })
}

fn both<A: Drop, B: Drop>(
    first: Result<A, Error>,
    second: Result<B, Error>,
) -> Result<(A, B), Error> {
    let first = first?;
    Ok((first, second?))
}

/// The module whose text stands first, before its entries.
pub(crate) fn module(alloc: Global, arguments: &[Value]) -> Result<Value, Error> {
    match arguments {
        [text, members @ ..] => {
            let (text, members) = both(owned(alloc, text), entries(alloc, members))?;
            Value::from_module(alloc, members, text)
        }
        [] => Err(Error::new(ErrorKind::MissingArgument)),
    }
}

/// The bytes that the values are.
pub(crate) fn bytes(alloc: Global, values: &[Value]) -> Result<Vec<u8>, Error> {
    let mut bytes = Vec::new(alloc);
    for value in values {
        put(&mut bytes, byte(value))?;
    }
    Ok(bytes)
}

fn byte(value: &Value) -> Result<u8, Error> {
    match u8::try_from(value.as_int().unwrap_or(-1)) {
        Ok(byte) => Ok(byte),
        Err(_) => Err(Error::new(ErrorKind::SyntaxError)),
    }
}

/// The text that the value is.
pub(crate) fn text_of(value: &Value) -> Result<&str, Error> {
    match value.as_str() {
        Some(text) => Ok(text),
        None => Err(Error::new(ErrorKind::SyntaxError)),
    }
}

/// A copy of the text that the value is.
pub(crate) fn owned(alloc: Global, value: &Value) -> Result<String, Error> {
    Ok(String::from_str(alloc, text_of(value)?)?)
}
