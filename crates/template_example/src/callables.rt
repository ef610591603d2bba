//! What the shop brings to its environment.
ghost use Rattle.std.specs.Prelude.{◌≡◌, ◌++◌, ◌∷◌, [], IfErr, IfOk, string_bytes};
ghost use Rattle.template_values.specs.Answers.{text_in};
ghost use Rattle.template_values.specs.Gives.{Gives};
ghost use Rattle.template_values.specs.Memory.{NoMemory};
ghost use Rattle.template_values.specs.Val as values;
ghost use Rattle.template_machine.specs.CallableAnswers.{Answers, asked_by};
ghost use Rattle.template_machine.specs.Callables.{filter};
ghost use Rattle.template_example.specs.Says as says;

use std::alloc::Global;
use template_builtins::{Builtin, PythonMethod, PythonMethods};
use template_machine::{
    Answer, CallView, Callable, Content, Error, ErrorKind, Extension, Further, NoFormatter, NoJoin,
    NoRule, UnknownMethod, Value,
};
use template_values::Kwargs;

/// The shop's own: the filter, the function and the test below, beside the builtins; and filters as methods, beside Python's.
pub struct Shop;

impl Extension for Shop {
    type Callable = Own;

    type Method = ShopMethods;

    type Formatter = NoFormatter;

    type Join = NoJoin;

    type Rule = NoRule;
}

/// A filter, a function or a test, or a builtin.
#[derive(Drop)]
pub enum Own {
    Builtin(Builtin),
    Label(Label),
    Link(Link),
    Cheap(Cheap),
}

/// By this the builtins are installed beside the shop's own.
impl From<Builtin> for Own {
    ghost use Rattle.std.specs.Prelude.{◌≡◌};
    ghost use Rattle.template_example.specs.declared.callables.Own.TheVariants as owns;

    ghost from_gives = { λ builtin own. own ≡ owns.Builtin builtin };

    fn from(builtin: Builtin) -> Own {
        Own::Builtin(builtin)
    }
}

impl Callable for Own {
    ghost answer = { says.own_says };

    fn invoke(&self, view: &CallView<'_>, args: &[Value]) -> Answer {
        match self {
            Own::Builtin(builtin) => builtin.invoke(view, args),
            Own::Label(label) => label.invoke(view, args),
            Own::Link(link) => link.invoke(view, args),
            Own::Cheap(cheap) => cheap.invoke(view, args),
        }
    }
}

/// A filter that puts a prefix in front of a text.
#[derive(Drop)]
pub struct Label {
    pub alloc: Global,
    pub prefix: String,
}

impl Callable for Label {
    ghost answer = { says.label_says };

    fn invoke(&self, _view: &CallView<'_>, args: &[Value]) -> Answer {
        let [value, ..] = args else {
            return Answer::Fault(Error::new(ErrorKind::MissingArgument));
        };
        match value.as_str() {
            Some(text) => Answer::from(self.labelled(text)),
            None => Answer::Fault(Error::new(ErrorKind::InvalidOperation)),
        }
    }
}

impl Label {
    fn labelled(&self, text: &str) -> Result<Value, Error>
        ensures made { IfOk result (λ v. v ≡ values.text (string_bytes self.now.prefix ++ text.now)) }
        ensures refused { IfErr result NoMemory }
    {
        let mut labelled = String::from_str(self.alloc, self.prefix.as_str())?;
        labelled.push_str(text)?;
        Value::from_text(labelled)
    }
}

/// A function that makes a link of a text, to the page that its argument `to` names.
#[derive(Drop)]
pub struct Link {
    pub alloc: Global,
}

impl Callable for Link {
    ghost answer = { says.link_says };

    fn invoke(&self, _view: &CallView<'_>, args: &[Value]) -> Answer {
        Answer::from(self.link(args))
    }
}

impl Link {
    fn link(&self, args: &[Value]) -> Result<Value, Error>
        ensures { Gives result (says.linked args.now) }
    {
        let [text, named] = args else {
            return Err(Error::new(ErrorKind::MissingArgument));
        };
        let Some(kwargs) = Kwargs::extract(named)? else {
            return Err(Error::new(ErrorKind::InvalidOperation));
        };
        self.link_to(text, &kwargs.get("to")?)
    }

    fn link_to(&self, text: &Value, to: &Value) -> Result<Value, Error>
        ensures { Gives result (says.link_to (text_in text.now) (text_in to.now)) }
    {
        let (Some(text), Some(to)) = (text.as_str(), to.as_str()) else {
            return Err(Error::new(ErrorKind::InvalidOperation));
        };
        let mut link = String::from_str(self.alloc, "[")?;
        link.push_str(text)?;
        link.push_str("](")?;
        link.push_str(to)?;
        link.push_str(")")?;
        Value::from_text(link)
    }
}

/// A test of prices: whether one is a whole number up to a limit.
#[derive(Drop)]
pub struct Cheap {
    pub limit: i128,
}

impl Callable for Cheap {
    ghost answer = { says.cheap_says };

    fn invoke(&self, _view: &CallView<'_>, args: &[Value]) -> Answer {
        match args {
            [price, ..] => Answer::Done(None, Value::from_bool(self.is_cheap(price))),
            [] => Answer::Fault(Error::new(ErrorKind::MissingArgument)),
        }
    }
}

impl Cheap {
    fn is_cheap(&self, price: &Value) -> bool
        ensures { result ≡ says.is_cheap self.now.limit price.now }
    {
        match price.content() {
            Content::Int(price) => price <= self.limit,
            _ => false,
        }
    }
}

/// Python's methods; each method that a value does not have there either is the filter of its name.
#[derive(Drop)]
pub struct ShopMethods {
    pub python: PythonMethods,
}

/// By this Python's methods are installed with the builtins.
impl From<PythonMethods> for ShopMethods {
    ghost use Rattle.std.specs.Prelude.{◌≡◌};

    ghost from_gives = { λ python methods. methods.python ≡ python };

    fn from(python: PythonMethods) -> ShopMethods {
        ShopMethods { python }
    }
}

impl UnknownMethod for ShopMethods {
    ghost answer = { says.methods_say };

    fn invoke(&self, view: &CallView<'_>, value: &Value, method: &str, args: &[Value]) -> Answer {
        match PythonMethod::of(value, method) {
            Some(_) => self.python.invoke(view, value, method, args),
            None => self.as_filter(value, method, args),
        }
    }
}

impl ShopMethods {
    fn as_filter(&self, value: &Value, name: &str, args: &[Value]) -> Answer
        ensures { Answers (says.filter_asked value.now name.now args.now) result }
    {
        if !args.is_empty() {
            return Answer::Fault(Error::new(ErrorKind::TooManyArguments));
        }
        match self.filtered(value, name) {
            Ok(filtered) => Answer::More(None, filtered),
            Err(refused) => Answer::Fault(refused),
        }
    }

    fn filtered(&self, value: &Value, name: &str) -> Result<Further, Error>
        ensures asked { IfOk result (λ further. asked_by further ≡ filter name.now (value.now ∷ [])) }
        ensures refused { IfErr result NoMemory }
    {
        let name = String::from_str(self.python.alloc, name)?;
        Ok(Further::Filter(name, vec![in self.python.alloc; value.copy()?]?))
    }
}
