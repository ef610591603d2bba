//! Values as fields show them.
ghost use Rattle.std.specs.Prelude.{IfOk, IfErr, ◌≡◌};
ghost use Rattle.template_builtins_arguments.specs.Answers.{TellsAs};
ghost use Rattle.template_builtins_fields.specs.Shown as forms;
ghost use Rattle.template_callables.specs.Views.{seen_in};
ghost use Rattle.template_values_errors.specs.Memory.{NoMemory};

use crate::layouts::Kind;
use crate::numerals::{Base, numeral};
use std::alloc::Global;
use template_builtins_arguments::{PrintedForm, printed, whole};
use template_callables::CallView;
use template_values_core::{Content, Value};
use template_values_errors::Error;

// A value as it is shown: a number's sign and digits, or a text.
#[derive(Drop)]
pub(crate) struct Form<'a> {
    pub(crate) number: bool,
    pub(crate) negative: bool,
    pub(crate) body: PrintedForm<'a>,
}

#[tactic(auto, unfolding(crate::specs::Shown::shown))]
pub(crate) fn shown<'a>(
    alloc: Global,
    view: &CallView<'_>,
    kind: Kind,
    value: &'a Value,
) -> Result<Form<'a>, Error>
    ensures { TellsAs forms.seen result (forms.shown (seen_in view.now) kind value.entry.now) }
{
    match kind {
        Kind::Any => any_shown(alloc, view, value),
        Kind::Printed => text_shown(alloc, view, value),
        Kind::Number(base) => number_shown(alloc, base, whole(value)?),
    }
}

fn any_shown<'a>(alloc: Global, view: &CallView<'_>, value: &'a Value) -> Result<Form<'a>, Error>
    ensures { TellsAs forms.seen result (forms.any_shown (seen_in view.now) value.entry.now) }
{
    match value.content() {
        Content::Int(number) => number_shown(alloc, Base::Decimal, number),
        _ => text_shown(alloc, view, value),
    }
}

fn text_shown<'a>(alloc: Global, view: &CallView<'_>, value: &'a Value) -> Result<Form<'a>, Error>
    ensures { TellsAs forms.seen result (forms.text_shown (seen_in view.now) value.entry.now) }
{
    let body = printed(alloc, view, value)?;
    Ok(Form {
        number: false,
        negative: false,
        body,
    })
}

fn number_shown<'a>(alloc: Global, base: Base, number: i128) -> Result<Form<'a>, Error>
    ensures made { IfOk result (λ s. forms.seen s ≡ forms.number_shown base number) }
    ensures refused { IfErr result NoMemory }
{
    let body = PrintedForm::Made(numeral(alloc, base, number.unsigned_abs())?);
    Ok(Form {
        number: true,
        negative: number < 0,
        body,
    })
}
