//! Methods by kind of value and by name, and the callback that answers for them.
ghost use Rattle.std.specs.Prelude.{◌≡◌, Err, Some};
ghost use Rattle.template_builtins_arguments.specs.Answers.{Tells};
ghost use Rattle.template_builtins_methods.specs.Methods as methods;
ghost use Rattle.template_callables.specs.Views.{seen_in};

use crate::lists::ListMethod;
use crate::maps::MapMethod;
use crate::names::{field_method, list_method, map_method, piece_method, text_method};
use crate::texts::TextMethod;
use std::alloc::Global;
use template_builtins_arguments::stated;
use template_builtins_fields::FieldMethod;
use template_builtins_pieces::PieceMethod;
use template_callables::{Answer, CallView, Either, UnknownMethod};
use template_values_core::{Content, Value};
use template_values_errors::{Error, ErrorKind};

/// A method, by the kind of value that has it.
#[derive(Clone, Copy)]
pub enum PythonMethod {
    /// Of a text.
    Text(TextMethod),
    /// Of a text, which it cuts, pads or joins.
    Piece(PieceMethod),
    /// Of a text, whose fields it fills in.
    Field(FieldMethod),
    /// Of a map or a keyword map.
    Map(MapMethod),
    /// Of a list or a tuple.
    List(ListMethod),
}

impl PythonMethod {
    /// The method of a name that a value of this kind has. Linear in the number of methods.
    #[tactic(auto, unfolding(crate::specs::Methods::method_of))]
    pub fn of(value: &Value, name: &str) -> Option<PythonMethod>
        ensures { result ≡ methods.method_of value.now name.now }
    {
        match value.content() {
            Content::Text(_) | Content::SafeText(_) => PythonMethod::of_text(name),
            Content::Map(_) | Content::KeywordMap(_) => Some(PythonMethod::Map(map_method(name)?)),
            Content::List(_) | Content::Tuple(_) => Some(PythonMethod::List(list_method(name)?)),
            _ => None,
        }
    }

    // The method of a text.
    fn of_text(name: &str) -> Option<PythonMethod>
        ensures { result ≡ methods.method_of_text name.now }
    {
        match text_method(name) {
            Some(method) => Some(PythonMethod::Text(method)),
            None => PythonMethod::of_format(name),
        }
    }

    // The method that makes a text of parts, or of fields.
    fn of_format(name: &str) -> Option<PythonMethod>
        ensures { result ≡ methods.method_of_format name.now }
    {
        match piece_method(name) {
            Some(method) => Some(PythonMethod::Piece(method)),
            None => Some(PythonMethod::Field(field_method(name)?)),
        }
    }

    /// What the method makes of a value and the arguments.
    ///
    /// # Errors
    ///
    /// Those of [`TextMethod::apply`], [`PieceMethod::apply`], [`FieldMethod::apply`], [`MapMethod::apply`] and [`ListMethod::apply`].
    pub fn apply(
        self,
        alloc: Global,
        view: &CallView<'_>,
        value: &Value,
        arguments: &[Value],
    ) -> Result<Value, Error>
        ensures { Tells result (methods.called self (seen_in view.now) value.now arguments.now) }
    {
        match self {
            PythonMethod::Text(method) => method.apply(alloc, view, value, arguments),
            PythonMethod::Piece(method) => method.apply(alloc, view, value, arguments),
            PythonMethod::Field(method) => method.apply(alloc, view, value, arguments),
            PythonMethod::Map(method) => method.apply(alloc, view, value, arguments),
            PythonMethod::List(method) => method.apply(alloc, view, value, arguments),
        }
    }
}

/// Answers for the methods that texts, maps and lists have as Python's do: what the method of a name makes of a value and of the
/// arguments, and `UnknownMethod` where a value of that kind has no method of that name.
#[derive(Drop)]
pub struct PythonMethods {
    /// Where it takes its memory.
    pub alloc: Global,
}

impl UnknownMethod for PythonMethods {
    ghost use Rattle.template_builtins_methods.specs.Methods.{methods_say};

    ghost answer = { methods_say };

    fn invoke(&self, view: &CallView<'_>, value: &Value, method: &str, args: &[Value]) -> Answer {
        stated(self.called(view, value, method, args))
    }
}

/// By this Python's methods are installed where a callback of another type may take their place.
impl<Own> From<PythonMethods> for Either<PythonMethods, Own> {
    ghost use Rattle.std.specs.Prelude.{◌≡◌};
    ghost use Rattle.template_callables.specs.declared.either.Either.TheVariants.{First};

    ghost from_gives = { λ methods either. either ≡ First methods };

    fn from(methods: PythonMethods) -> Either<PythonMethods, Own> {
        Either::First(methods)
    }
}

impl PythonMethods {
    fn called(
        &self,
        view: &CallView<'_>,
        value: &Value,
        name: &str,
        arguments: &[Value],
    ) -> Result<Value, Error>
        ensures { Tells result (methods.called_by (methods.method_of value.now name.now) (seen_in view.now) value.now arguments.now) }
    {
        match PythonMethod::of(value, name) {
            Some(method) => method.apply(self.alloc, view, value, arguments),
            None => Err(Error::new(ErrorKind::UnknownMethod)),
        }
    }
}
