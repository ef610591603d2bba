//! The filters that make texts for the web.
ghost use Rattle.template_builtins_arguments.specs.Answers.{Tells};
ghost use Rattle.template_builtins_web.specs.Filters.{web_filtered};
ghost use Rattle.template_callables.specs.Views.{seen_in};

use crate::{attributes, json_text, queries};
use std::alloc::Global;
use template_callables::CallView;
use template_values_core::Value;
use template_values_errors::Error;

/// The filters that make texts for the web.
#[derive(Clone, Copy)]
pub enum WebFilter {
    /// The JSON text, where it means nothing to HTML, on one line or with `indent` spaces a level.
    ToJson,
    /// The text as a part of a URL, or the pairs of a map, list or tuple as its query.
    UrlEncode,
    /// A map as the attributes of an element.
    XmlAttr,
}

impl WebFilter {
    /// What the filter makes of a value and the arguments after it. Linear in the text that is made.
    ///
    /// # Errors
    ///
    /// - [`ErrorKind::TooManyArguments`], by the arguments that the filter has.
    /// - Then, from the value on: [`ErrorKind::UndefinedError`] at an undefined value, where these may not be printed;
    ///   [`ErrorKind::InvalidOperation`] at a record, a value of a wrong kind, a key that is no name, or an argument of a wrong kind or
    ///   size; [`ErrorKind::BadSerialization`], where the value has no JSON text.
    /// - [`ErrorKind::OutOfMemory`]
    ///
    /// [`ErrorKind::TooManyArguments`]: template_values_errors::ErrorKind::TooManyArguments
    /// [`ErrorKind::UndefinedError`]: template_values_errors::ErrorKind::UndefinedError
    /// [`ErrorKind::InvalidOperation`]: template_values_errors::ErrorKind::InvalidOperation
    /// [`ErrorKind::BadSerialization`]: template_values_errors::ErrorKind::BadSerialization
    /// [`ErrorKind::OutOfMemory`]: template_values_errors::ErrorKind::OutOfMemory
    pub fn apply(
        self,
        alloc: Global,
        view: &CallView<'_>,
        value: &Value,
        arguments: &[Value],
    ) -> Result<Value, Error>
        ensures { Tells result (web_filtered self (seen_in view.now) value.now arguments.now) }
    {
        match self {
            WebFilter::ToJson => json_text::to_json(alloc, view, value, arguments),
            WebFilter::UrlEncode => queries::url_encode(alloc, view, value, arguments),
            WebFilter::XmlAttr => attributes::xml_attributes(alloc, view, value, arguments),
        }
    }
}
