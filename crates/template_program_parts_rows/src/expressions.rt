//! Expressions in JSON: `null` is none, an array is a call of the name that stands first with the values
//! of the others, and all else is itself.
use crate::calls::{constant, of_one, of_two};
use crate::constructors::{bytes, copies, entries, list_of_one, module, put};
use crate::report::Report;
use crate::scene::Scene;
use serde_json::Value as Json;
use std::alloc::Global;
use template_values::{Error, ErrorKind, Value, print_to, slice};

/// What the expression has, as containers print it, or the kind of the refusal.
pub(crate) fn about_expression(alloc: Global, expression: &Json, out: &mut Report) {
    match Scene::new(alloc) {
        Ok(scene) => {
            let value = value_of(alloc, &scene, expression);
            tell(&scene, list_of_one(alloc, value), out);
            drop(scene)
        }
        Err(error) => out.refuse(error.kind()),
    }
}

fn tell(scene: &Scene, list: Result<Value, Error>, out: &mut Report) {
    match &list {
        Ok(list) => tell_item(scene, list, out),
        Err(error) => out.push_str(error.kind().name()),
    }
    drop(list)
}

// As the item of a list, without the list's brackets.
fn tell_item(scene: &Scene, list: &Value, out: &mut Report) {
    let mut text = String::new(*out.text.allocator());
    match print_to(list, scene, &mut text) {
        Ok(()) => {
            let item = 1..text.len().saturating_sub(1);
            out.push_str(text.as_str().get(item).unwrap_or(""))
        }
        Err(error) => out.refuse(error.kind()),
    }
}

#[cycle(expressions)]
fn value_of(alloc: Global, scene: &Scene, expression: &Json) -> Result<Value, Error> {
    match expression {
        Json::Null => Ok(Value::none()),
        Json::Bool(truth) => Ok(Value::from_bool(*truth)),
        Json::Number(number) => match number.as_i128() {
            Some(number) => Ok(Value::from_int(number)),
            None => Err(Error::new(ErrorKind::NoFloats)),
        },
        Json::String(text) => Value::from_str(alloc, text.as_str()),
        Json::Array(words) => {
            let words = values_of(alloc, scene, words.as_slice())?;
            call(alloc, scene, words.as_slice())
        }
        Json::Object(_) => Err(Error::new(ErrorKind::SyntaxError)),
    }
}

#[cycle(expressions)]
fn values_of(alloc: Global, scene: &Scene, expressions: &[Json]) -> Result<Vec<Value>, Error> {
    let mut values = Vec::new(alloc);
    for expression in expressions {
        put(&mut values, value_of(alloc, scene, expression))?;
    }
    Ok(values)
}

// Of the name that stands first, with the others.
fn call(alloc: Global, scene: &Scene, words: &[Value]) -> Result<Value, Error> {
    let [name, arguments @ ..] = words else {
        return Err(Error::new(ErrorKind::SyntaxError));
    };
    match name.as_str() {
        Some(name) => call_by_name(alloc, scene, name, arguments),
        None => Err(Error::new(ErrorKind::SyntaxError)),
    }
}

fn call_by_name(
    alloc: Global,
    scene: &Scene,
    name: &str,
    arguments: &[Value],
) -> Result<Value, Error> {
    match name {
        "list" => Value::from_list(alloc, copies(alloc, arguments)?),
        "tuple" => Value::from_tuple(alloc, copies(alloc, arguments)?),
        "map" => Value::from_map(alloc, entries(alloc, arguments)?),
        "kwargs" => Value::from_kwargs(alloc, entries(alloc, arguments)?),
        "module" => module(alloc, arguments),
        "bytes" => Value::from_bytes(alloc, bytes(alloc, arguments)?),
        _ => call_by_count(alloc, scene, name, arguments),
    }
}

fn call_by_count(
    alloc: Global,
    scene: &Scene,
    name: &str,
    arguments: &[Value],
) -> Result<Value, Error> {
    match arguments {
        [] => constant(name),
        [value] => of_one(alloc, scene, name, value),
        [left, right] => of_two(alloc, scene, name, left, right),
        [value, start, stop, step] if name == "slice" => slice(alloc, value, start, stop, step),
        _ => Err(Error::new(ErrorKind::UnknownFunction)),
    }
}
