//! A value, and how it is made, shared and read.
ghost use Rattle.std.specs.Prelude.{◌≡◌, ◌≤◌, max, IfOk, IfErr, string_bytes, option_copied};
ghost use Rattle.template_values_errors.specs.Memory.{NoMemory};
ghost use Rattle.template_values_model.specs.Val.{Val, undefined, silent_undefined, none, truth, int, text};
ghost use Rattle.template_values_core.specs.Answers.{text_in};
ghost use Rattle.template_values_core.specs.Depth.{depth};
ghost use Rattle.template_values_core.specs.Kept.{IsShared};

use std::alloc::{AllocError, Global};
use std::marker::Model;
use std::rc::{Rc, RcStr};
use template_values_errors::Error;
use template_values_model::DEPTH_LIMIT;

/// A value of the template language. A contract sees it as the mathematical value; its depth is
/// at most [`DEPTH_LIMIT`]. The contents of texts, bytes, lists, tuples, maps and modules are shared by the
/// copies of a value.
#[cycle(value)]
#[derive(Drop)]
pub struct Value {
    pub(crate) levels: u32,
    pub(crate) repr: Repr,
}

/// What a value holds.
#[cycle(value)]
#[derive(Drop)]
pub(crate) enum Repr {
    Undefined,
    SilentUndefined,
    None,
    Truth(bool),
    Int(i128),
    Text(Rc<String>),
    SafeText(Rc<String>),
    Bytes(Rc<Vec<u8>>),
    List(Rc<Vec<Value>>),
    Tuple(Rc<Vec<Value>>),
    Map(Rc<Vec<Entry>>),
    KeywordMap(Rc<Vec<Entry>>),
    Module(Rc<Vec<Entry>>, RcStr),
    Function(u64, usize),
    Namespace(u64, usize),
    Loop(u64, usize),
    Macro(u64, usize),
}

/// A key with its value.
#[cycle(value)]
#[derive(Drop)]
pub struct Entry {
    /// What the value is looked up by.
    pub key: Value,
    /// What stands under the key.
    pub value: Value,
}

impl Model for Value {
    ghost use Rattle.std.specs.Prelude.{◌≡◌, ◌≤◌};
    ghost use Rattle.template_values_model.specs.declared.TheConstants.{DEPTH_LIMIT};
    ghost use Rattle.template_values_model.specs.Val.{Val};
    ghost use Rattle.template_values_core.specs.Code.{val_code};
    ghost use Rattle.template_values_core.specs.Depth.{depth};

    ghost Value = { Val };

    ghost coded = { val_code };

    ghost use Rattle.template_values_core.specs.Shape.{repr_view};
    ghost use Rattle.template_values_core.specs.Kept.{IsKept};

    ghost view = { λ a. repr_view a.repr };

    ghost invariant = { λ a. (a.levels ≡ depth (repr_view a.repr)) × (a.levels ≤ DEPTH_LIMIT) × IsKept a.repr };

    ghost size = { depth };

    ghost use Rattle.template_values_core.specs.Falls.{repr_falls};

    ghost size_decreases = { λ a h. repr_falls a.repr };
}

impl Value {
    /// The undefined value.
    pub fn undefined() -> Value
        ensures { result ≡ undefined }
    {
        Value {
            levels: 0,
            repr: Repr::Undefined,
        }
    }

    /// The undefined value that a missing `else` of an if-expression gives. It is equal to
    /// [`Value::undefined`], and prints where that one may be refused.
    pub fn silent_undefined() -> Value
        ensures { result ≡ silent_undefined }
    {
        Value {
            levels: 0,
            repr: Repr::SilentUndefined,
        }
    }

    /// The value `none`.
    pub fn none() -> Value
        ensures { result ≡ none }
    {
        Value {
            levels: 0,
            repr: Repr::None,
        }
    }

    /// A truth value.
    pub fn from_bool(value: bool) -> Value
        ensures { result ≡ truth value }
    {
        Value {
            levels: 0,
            repr: Repr::Truth(value),
        }
    }

    /// A whole number.
    pub fn from_int(value: i128) -> Value
        ensures { result ≡ int value }
    {
        Value {
            levels: 0,
            repr: Repr::Int(value),
        }
    }

    /// A plain text. Its bytes are not copied.
    ///
    /// # Errors
    ///
    /// [`ErrorKind::OutOfMemory`]
    pub fn from_text(text: String) -> Result<Value, Error>
        ensures made { IfOk result (λ v. v ≡ Val.text (string_bytes text)) }
        ensures refused { IfErr result NoMemory }
    {
        Ok(Value {
            levels: 0,
            repr: Repr::Text(shared(text)?),
        })
    }

    /// A plain text, copied from a `&str`. Linear in its length.
    ///
    /// # Errors
    ///
    /// [`ErrorKind::OutOfMemory`]
    pub fn from_str(alloc: Global, text: &str) -> Result<Value, Error>
        ensures made { IfOk result (λ v. v ≡ Val.text text.now) }
        ensures refused { IfErr result NoMemory }
    {
        Value::from_text(String::from_str(alloc, text)?)
    }

    /// A text that is written without escapes. Its bytes are not copied.
    ///
    /// # Errors
    ///
    /// [`ErrorKind::OutOfMemory`]
    pub fn from_safe_text(text: String) -> Result<Value, Error>
        ensures made { IfOk result (λ v. v ≡ Val.safe_text (string_bytes text)) }
        ensures refused { IfErr result NoMemory }
    {
        Ok(Value {
            levels: 0,
            repr: Repr::SafeText(shared(text)?),
        })
    }

    /// Bytes, which need be no text. They are not copied.
    ///
    /// # Errors
    ///
    /// [`ErrorKind::OutOfMemory`]
    pub fn from_bytes(alloc: Global, bytes: Vec<u8>) -> Result<Value, Error>
        ensures made { IfOk result (λ v. v ≡ Val.bytes bytes.items) }
        ensures refused { IfErr result NoMemory }
    {
        Ok(Value {
            levels: 0,
            repr: Repr::Bytes(Rc::new(alloc, bytes)?),
        })
    }

    /// The function of a number in the environment of an id.
    pub fn function(id: u64, number: usize) -> Value
        ensures { result ≡ Val.function id number }
    {
        Value {
            levels: 0,
            repr: Repr::Function(id, number),
        }
    }

    /// The namespace of a number in the state of an id.
    pub fn namespace(id: u64, number: usize) -> Value
        ensures { result ≡ Val.namespace id number }
    {
        Value {
            levels: 0,
            repr: Repr::Namespace(id, number),
        }
    }

    /// The loop of a number in the state of an id.
    pub fn loop_record(id: u64, number: usize) -> Value
        ensures { result ≡ Val.loop_record id number }
    {
        Value {
            levels: 0,
            repr: Repr::Loop(id, number),
        }
    }

    /// The macro of a number in the state of an id.
    pub fn macro_record(id: u64, number: usize) -> Value
        ensures { result ≡ Val.macro_record id number }
    {
        Value {
            levels: 0,
            repr: Repr::Macro(id, number),
        }
    }

    /// The same value, whose contents are shared: nothing of them is copied, however large they
    /// are.
    ///
    /// # Errors
    ///
    /// [`ErrorKind::OutOfMemory`]
    #[inline(always)]
    pub fn copy(&self) -> Result<Value, Error>
        ensures same { IfOk result (λ v. v ≡ self.now) }
        ensures refused { IfErr result NoMemory }
    {
        Ok(Value {
            levels: self.levels(),
            repr: self.repr.share()?,
        })
    }

    /// How deep the value nests: 0 for scalars, one more than the deepest item for containers.
    pub fn levels(&self) -> u32
        ensures is { result ≡ depth self.now }
        ensures bound { depth self.now ≤ DEPTH_LIMIT }
    {
        self.levels
    }

    /// The text of a plain or a safe text.
    pub fn as_str(&self) -> Option<&str>
        ensures { option_copied result ≡ text_in self.now }
    {
        match &self.repr {
            Repr::Text(text) => Some(text.as_ref().as_str()),
            Repr::SafeText(text) => Some(text.as_ref().as_str()),
            _ => None,
        }
    }

    /// The text of a plain text that no other value shares, with the room that it has; else the value as it was. Takes constant
    /// time.
    pub fn into_text(self) -> Result<String, Value>
        ensures taken { IfOk result (λ text. self ≡ Val.text (string_bytes text)) }
        ensures kept { IfErr result (λ v. v ≡ self) }
    {
        let Value { levels, repr } = self;
        match repr {
            Repr::Text(text) => match Rc::try_unwrap(text) {
                Ok(text) => Ok(text),
                Err(text) => Err(Value {
                    levels,
                    repr: Repr::Text(text),
                }),
            },
            repr => Err(Value { levels, repr }),
        }
    }
}

// A text that values can share. Its bytes are not copied.
fn shared(text: String) -> Result<Rc<String>, Error>
    ensures made { IfOk result (λ rc. rc.value ≡ text) }
    ensures refused { IfErr result NoMemory }
{
    let alloc = *text.allocator();
    Ok(Rc::new(alloc, text)?)
}

impl Repr {
    #[inline(always)]
    fn share(&self) -> Result<Repr, AllocError>
        ensures { IfOk result (λ r. IsShared self.now r) }
    {
        Ok(match self {
            Repr::Undefined => Repr::Undefined,
            Repr::SilentUndefined => Repr::SilentUndefined,
            Repr::None => Repr::None,
            Repr::Truth(value) => Repr::Truth(*value),
            Repr::Int(value) => Repr::Int(*value),
            Repr::Text(text) => Repr::Text(text.clone()?),
            Repr::SafeText(text) => Repr::SafeText(text.clone()?),
            Repr::Bytes(bytes) => Repr::Bytes(bytes.clone()?),
            Repr::List(items) => Repr::List(items.clone()?),
            Repr::Tuple(items) => Repr::Tuple(items.clone()?),
            Repr::Map(entries) => Repr::Map(entries.clone()?),
            Repr::KeywordMap(entries) => Repr::KeywordMap(entries.clone()?),
            Repr::Module(entries, text) => Repr::Module(entries.clone()?, text.clone()?),
            Repr::Function(id, number) => Repr::Function(*id, *number),
            Repr::Namespace(id, number) => Repr::Namespace(*id, *number),
            Repr::Loop(id, number) => Repr::Loop(*id, *number),
            Repr::Macro(id, number) => Repr::Macro(*id, *number),
        })
    }
}

pub(crate) fn larger(a: u32, b: u32) -> u32
    ensures { result ≡ max a b }
{
    if a < b { b } else { a }
}
