//! How texts are put together.
ghost use Rattle.std.specs.Prelude.{◌≡◌, ◌++◌, IfErr, IfOk, OnOk, option_copied, string_bytes};
ghost use Rattle.template_builtins_arguments.specs.Printing.{shown};
ghost use Rattle.template_builtins_layout.specs.Putting.{is_safe_argument, makes_both_safe, put_in};
ghost use Rattle.template_callables.specs.Views.{seen_in};
ghost use Rattle.template_values_errors.specs.Memory.{NoMemory};
ghost use Rattle.template_values_forms.specs.Escapes.{html};
ghost use Rattle.template_values_print.specs.Pieces.{encoded};

use std::alloc::Global;
use template_builtins_arguments::{PrintedForm, is_html, is_safe};
use template_callables::CallView;
use template_values_core::Value;
use template_values_errors::Error;
use template_values_print::{Markup, push};

pub(crate) fn is_safe_argument(given: Option<&Value>) -> bool
    ensures { result ≡ is_safe_argument (option_copied given.entry) }
{
    match given {
        Some(value) => is_safe(value),
        None => false,
    }
}

// Whether a value and an argument are put together to a safe text.
pub(crate) fn makes_both_safe(view: &CallView<'_>, value: &Value, given: Option<&Value>) -> bool
    ensures { result ≡ makes_both_safe (seen_in view.now) value.now (option_copied given.entry) }
{
    is_html(view.auto_escape()) && (is_safe(value) || is_safe_argument(given))
}

// How a text is put in.
pub(crate) fn markup_of(whole_safe: bool, safe: bool) -> Markup
    ensures { encoded result ≡ put_in whole_safe safe }
{
    if whole_safe && !safe {
        Markup::Html
    } else {
        Markup::Plain
    }
}

// How a text is put in.
pub(crate) fn put_in<'a>(
    alloc: Global,
    whole_safe: bool,
    safe: bool,
    text: &'a str,
) -> Result<PrintedForm<'a>, Error>
    ensures made { IfOk result (λ p. shown p ≡ put_in whole_safe safe text.entry.now) }
    ensures refused { IfErr result NoMemory }
{
    match markup_of(whole_safe, safe) {
        Markup::Plain => Ok(PrintedForm::Held(text)),
        Markup::Html => Ok(PrintedForm::Made(escaped(alloc, text)?)),
    }
}

fn escaped(alloc: Global, text: &str) -> Result<String, Error>
    ensures made { IfOk result (λ t. string_bytes t ≡ html text.now) }
    ensures refused { IfErr result NoMemory }
{
    let mut out = String::new(alloc);
    push(&mut out, Markup::Html, text)?;
    Ok(out)
}

// Puts a text behind another.
pub(crate) fn push_text(out: &mut String, markup: Markup, text: &str) -> Result<(), Error>
    ensures made { OnOk result (string_bytes out.new ≡ string_bytes out.old ++ encoded markup text.now) }
    ensures refused { IfErr result NoMemory }
{
    push(out, markup, text)
}
