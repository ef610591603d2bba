//! The methods of texts.
ghost use Rattle.template_builtins_arguments.specs.Answers.{Tells};
ghost use Rattle.template_builtins_methods.specs.Texts.{text_called};
ghost use Rattle.template_callables.specs.Views.{seen_in};

use crate::ends::{End, stands};
use crate::places::{Direction, found};
use crate::strips::{Side, strip};
use crate::{cases, letters, places};
use std::alloc::Global;
use template_callables::CallView;
use template_values_core::Value;
use template_values_errors::Error;

/// The methods of texts. The texts that they make are plain.
#[derive(Clone, Copy)]
pub enum TextMethod {
    /// In upper case.
    Upper,
    /// In lower case.
    Lower,
    /// Each letter behind one that has a case in lower case, each other one in upper.
    Title,
    /// Upper case in lower, lower case in upper.
    SwapCase,
    /// The first character in upper case, the rest in lower.
    Capitalize,
    /// Without white space, or without some characters, at both ends.
    Strip,
    /// The same at the start.
    LStrip,
    /// The same at the end.
    RStrip,
    /// Whether the text begins with another, or with one of a tuple of texts.
    StartsWith,
    /// Whether it ends so.
    EndsWith,
    /// The first place of another text, in characters, or -1.
    Find,
    /// The last place of another text, in characters, or -1.
    RFind,
    /// The first place of another text, in characters.
    Index,
    /// How often another text stands in it.
    Count,
    /// Whether there are characters, and each is numeric.
    IsDigit,
    /// Whether there are characters, and each is a letter.
    IsAlpha,
    /// Whether there are characters, and each is a letter or numeric.
    IsAlnum,
    /// Whether there are characters, and each is white space.
    IsSpace,
    /// Whether there is a letter in lower case, and none in upper.
    IsLower,
    /// Whether there is a letter in upper case, and none in lower.
    IsUpper,
}

impl TextMethod {
    /// What the method makes of a text and the arguments. Linear in the texts, but for those of the first ones that look each character
    /// at the ends up in the argument.
    ///
    /// # Errors
    ///
    /// - [`ErrorKind::TooManyArguments`], then [`ErrorKind::MissingArgument`], by the arguments that the method has, none of which is
    ///   given by keyword.
    /// - [`ErrorKind::InvalidOperation`] at another value, at an argument that is no text, or if `Index` finds nothing.
    /// - [`ErrorKind::OutOfMemory`]
    ///
    /// [`ErrorKind::TooManyArguments`]: template_values_errors::ErrorKind::TooManyArguments
    /// [`ErrorKind::MissingArgument`]: template_values_errors::ErrorKind::MissingArgument
    /// [`ErrorKind::InvalidOperation`]: template_values_errors::ErrorKind::InvalidOperation
    /// [`ErrorKind::OutOfMemory`]: template_values_errors::ErrorKind::OutOfMemory
    pub fn apply(
        self,
        alloc: Global,
        view: &CallView<'_>,
        value: &Value,
        arguments: &[Value],
    ) -> Result<Value, Error>
        ensures { Tells result (text_called self (seen_in view.now) value.now arguments.now) }
    {
        match self {
            TextMethod::Upper => cases::upper(alloc, value, arguments),
            TextMethod::Lower => cases::lower(alloc, value, arguments),
            TextMethod::Title => cases::title(alloc, value, arguments),
            TextMethod::SwapCase => cases::swap_case(alloc, value, arguments),
            TextMethod::Capitalize => cases::capitalize(alloc, view, value, arguments),
            TextMethod::Strip => strip(Side::Both, alloc, value, arguments),
            TextMethod::LStrip => strip(Side::Left, alloc, value, arguments),
            TextMethod::RStrip => strip(Side::Right, alloc, value, arguments),
            TextMethod::StartsWith => stands(End::Front, value, arguments),
            TextMethod::EndsWith => stands(End::Back, value, arguments),
            TextMethod::Find => found(Direction::FromStart, value, arguments),
            TextMethod::RFind => found(Direction::FromEnd, value, arguments),
            TextMethod::Index => places::index(value, arguments),
            TextMethod::Count => places::count(value, arguments),
            TextMethod::IsDigit => letters::is_digit(value, arguments),
            TextMethod::IsAlpha => letters::is_alpha(value, arguments),
            TextMethod::IsAlnum => letters::is_alnum(value, arguments),
            TextMethod::IsSpace => letters::is_space(value, arguments),
            TextMethod::IsLower => letters::is_lower(value, arguments),
            TextMethod::IsUpper => letters::is_upper(value, arguments),
        }
    }
}
