//! The digits of whole numbers.
ghost use Rattle.std.specs.Prelude.{◌≡◌, Ok, string_bytes};
ghost use Rattle.std.specs.Fmt.{signed_decimal};
ghost use Rattle.template_values_forms.specs.Escapes.{html};
ghost use Rattle.template_values_print.specs.Pieces.{Writes};

use crate::Markup;
use crate::pieces::push_plain;
use itoa::Buffer;
use template_values_errors::Error;

/// The digits of a number, behind a sign where it is negative. HTML reads none of them as markup. They stand in the buffer, so that no
/// memory is taken.
#[inline(always)]
#[tactic(auto, using(crate::proofs::Digits::html_signed))]
pub fn format_number(buffer: &mut Buffer, number: i128) -> &str
    ensures text { result.now ≡ signed_decimal number }
    ensures plain { html result.now ≡ result.now }
{
    buffer.format(number)
}

// Writes the digits of a number.
pub(crate) fn push_number(out: &mut String, markup: Markup, number: i128) -> Result<(), Error>
    ensures { Writes markup (string_bytes out.old) (Ok (signed_decimal number)) result (string_bytes out.new) }
{
    match markup {
        Markup::Plain => push_plain(out, Buffer::new().format(number)),
        Markup::Html => push_digits(out, format_number(&mut Buffer::new(), number)),
    }
}

fn push_digits(out: &mut String, digits: &str) -> Result<(), Error>
    requires { html digits.now ≡ digits.now }
    ensures { Writes Markup.Html (string_bytes out.old) (Ok digits.now) result (string_bytes out.new) }
{
    push_plain(out, digits)
}
