//! How a case describes what it brings.
use std::alloc::Global;
use template_rows::{Brought, First, Joined, Means, Named, Seen, What, unreadable};
use template_values_core::Value;
use template_values_errors::{Error, ErrorKind};

/// What a case describes, by a word or by a map; `SyntaxError` where there is no such.
pub(crate) fn brought_of(alloc: Global, described: &Value) -> Result<Brought, Error> {
    let what = match described.as_str() {
        Some(word) => what_by_word(word)?,
        None => what_of(alloc, described)?,
    };
    let counts = match text_at(described, "counts") {
        Some(name) => Some(String::from_str(alloc, name)?),
        None => None,
    };
    Ok(Brought {
        alloc,
        sets: sets_of(alloc, described.value_at("sets"))?,
        counts,
        what,
    })
}

/// What a case says of the names in templates: an object of texts under `behind`, or a fault under `fails`; `SyntaxError` where it
/// is none of these.
pub(crate) fn joined_of(alloc: Global, described: &Value) -> Result<Joined, Error> {
    let means = match (described.value_at("behind"), described.value_at("fails")) {
        (Some(prefixes), None) => Means::Behind(prefixes_of(alloc, prefixes)?),
        (None, Some(said)) => {
            let (kind, cause) = kinds_of(said)?;
            Means::Fails(kind, cause)
        }
        _ => return unreadable(),
    };
    Ok(Joined { alloc, means })
}

fn prefixes_of(alloc: Global, prefixes: &Value) -> Result<Vec<(String, String)>, Error> {
    let mut texts = Vec::new(alloc);
    for entry in prefixes.entries().unwrap_or(&[]) {
        let (Some(name), Some(prefix)) = (entry.key.as_str(), entry.value.as_str()) else {
            return unreadable();
        };
        texts.push((
            String::from_str(alloc, name)?,
            String::from_str(alloc, prefix)?,
        ))?;
    }
    Ok(texts)
}

/// The text under a name of a map, if there is one.
pub(crate) fn text_at<'map>(map: &'map Value, name: &str) -> Option<&'map str> {
    map.value_at(name)?.as_str()
}

// What is set among the temps first: pairs of a name and a value.
fn sets_of(alloc: Global, sets: Option<&Value>) -> Result<Vec<(String, Value)>, Error> {
    let mut temps = Vec::new(alloc);
    let Some(sets) = sets else {
        return Ok(temps);
    };
    let Some(pairs) = sets.items() else {
        return unreadable();
    };
    for pair in pairs {
        temps.push(set_of(alloc, pair)?)?;
    }
    Ok(temps)
}

fn set_of(alloc: Global, pair: &Value) -> Result<(String, Value), Error> {
    let Some([name, value]) = pair.items() else {
        return unreadable();
    };
    match name.as_str() {
        Some(name) => Ok((String::from_str(alloc, name)?, value.copy()?)),
        None => unreadable(),
    }
}

// The one answer of a map.
fn what_of(alloc: Global, described: &Value) -> Result<What, Error> {
    let mut what = None;
    for entry in described.entries().unwrap_or(&[]) {
        match entry.key.as_str() {
            Some("sets" | "counts") => {}
            Some(word) if what.is_none() => what = Some(what_at(alloc, word, &entry.value)?),
            _ => return unreadable(),
        }
    }
    match what {
        Some(what) => Ok(what),
        None => unreadable(),
    }
}

// The answer that stands under a word.
fn what_at(alloc: Global, word: &str, said: &Value) -> Result<What, Error> {
    match word {
        "gives" => Ok(What::Gives(said.copy()?)),
        "times" => Ok(What::First(First::Times(said.copy()?))),
        "at" => Ok(What::At(place_of(said)?)),
        "fails" => fault_of(said),
        _ => match said.as_str() {
            Some(name) => what_by_name(alloc, word, name),
            None => unreadable(),
        },
    }
}

fn what_by_name(alloc: Global, word: &str, name: &str) -> Result<What, Error> {
    if word == "answer" {
        return what_by_word(name);
    }
    what_named(word, String::from_str(alloc, name)?)
}

// The answer that asks for what has a name.
fn what_named(word: &str, name: String) -> Result<What, Error> {
    match word {
        "keyword" => Ok(What::Keyword(name)),
        "filter" => Ok(What::Filter(name)),
        "test" => Ok(What::Test(name)),
        "lookup" => Ok(What::Lookup(name)),
        "macro" => Ok(What::Macro(name)),
        "rendered" => Ok(What::Rendered(name)),
        "get" => Ok(What::Get(name)),
        "temp" => Ok(What::First(First::Temp(name))),
        "down" => Ok(What::First(First::Down(name))),
        _ => {
            drop(name);
            unreadable()
        }
    }
}

// The answer that is a word.
fn what_by_word(word: &str) -> Result<What, Error> {
    match word {
        "arguments" => Ok(What::Arguments),
        "name" => Ok(What::Seen(Seen::Template)),
        "escape" => Ok(What::Seen(Seen::Escape)),
        "undefined" => Ok(What::Seen(Seen::Undefined)),
        "block" => Ok(What::Seen(Seen::Block)),
        _ => Ok(What::First(first_by_word(word)?)),
    }
}

fn first_by_word(word: &str) -> Result<First, Error> {
    match word {
        "first" => Ok(First::Itself),
        "safe" => Ok(First::Safe),
        "same" => Ok(First::Same),
        "call" => Ok(First::Call),
        "filter" => Ok(First::Name(Named::Filter)),
        "test" => Ok(First::Name(Named::Test)),
        "lookup" => Ok(First::Name(Named::Lookup)),
        "macro" => Ok(First::Name(Named::Macro)),
        "get" => Ok(First::Name(Named::Get)),
        "set" => Ok(First::Name(Named::Set)),
        _ => unreadable(),
    }
}

fn place_of(said: &Value) -> Result<usize, Error> {
    let Some(place) = said.as_int() else {
        return unreadable();
    };
    match usize::try_from(place) {
        Ok(place) => Ok(place),
        Err(_) => unreadable(),
    }
}

fn fault_of(said: &Value) -> Result<What, Error> {
    let (kind, cause) = kinds_of(said)?;
    Ok(What::Fails(kind, cause))
}

// A kind, or a list of a kind and that of its cause.
fn kinds_of(said: &Value) -> Result<(ErrorKind, Option<ErrorKind>), Error> {
    if let Some([kind, cause]) = said.items() {
        return Ok((kind_of(kind)?, Some(kind_of(cause)?)));
    }
    Ok((kind_of(said)?, None))
}

const KINDS: [ErrorKind; 23] = [
    ErrorKind::SyntaxError,
    ErrorKind::InvalidDelimiter,
    ErrorKind::TooLarge,
    ErrorKind::OutOfMemory,
    ErrorKind::TemplateNotFound,
    ErrorKind::InvalidOperation,
    ErrorKind::UndefinedError,
    ErrorKind::UnknownFilter,
    ErrorKind::UnknownTest,
    ErrorKind::UnknownFunction,
    ErrorKind::UnknownMethod,
    ErrorKind::UnknownBlock,
    ErrorKind::TooManyArguments,
    ErrorKind::MissingArgument,
    ErrorKind::CannotUnpack,
    ErrorKind::BadSerialization,
    ErrorKind::BadEscape,
    ErrorKind::BadInclude,
    ErrorKind::EvalBlock,
    ErrorKind::WriteFailure,
    ErrorKind::OutOfFuel,
    ErrorKind::BadStream,
    ErrorKind::NoFloats,
];

// The kind of that name.
fn kind_of(name: &Value) -> Result<ErrorKind, Error> {
    for kind in KINDS {
        if name.as_str() == Some(kind.name()) {
            return Ok(kind);
        }
    }
    unreadable()
}
