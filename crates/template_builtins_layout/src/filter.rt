//! The filters on the layout of texts.
ghost use Rattle.template_builtins_arguments.specs.Answers.{Tells};
ghost use Rattle.template_builtins_layout.specs.Filters.{layout_filtered};
ghost use Rattle.template_callables.specs.Views.{seen_in};

use crate::{centers, tags, truncating, words, wordwrap};
use std::alloc::Global;
use template_callables::CallView;
use template_values_core::Value;
use template_values_errors::Error;

/// The filters on the layout of texts.
#[derive(Clone, Copy)]
pub enum LayoutFilter {
    /// The number of words: longest stretches of letters, digits and `_`.
    WordCount,
    /// The text in the middle of `width` characters.
    Center,
    /// The first `length` characters, where there are more, with `end` as the last ones.
    Truncate,
    /// The text without tags, with single spaces, and with characters for their references.
    StripTags,
    /// The lines broken before words that would pass `width` characters.
    WordWrap,
}

impl LayoutFilter {
    /// What the filter makes of a value and the arguments after it. Linear in the texts that it reads and makes.
    ///
    /// # Errors
    ///
    /// - [`ErrorKind::TooManyArguments`], by the arguments that the filter has.
    /// - Then, from the value on: [`ErrorKind::UndefinedError`] at an undefined value, where these may not be printed, and
    ///   [`ErrorKind::InvalidOperation`] at a record, or an argument of a wrong kind or size.
    /// - [`ErrorKind::OutOfMemory`]
    ///
    /// [`ErrorKind::TooManyArguments`]: template_values_errors::ErrorKind::TooManyArguments
    /// [`ErrorKind::UndefinedError`]: template_values_errors::ErrorKind::UndefinedError
    /// [`ErrorKind::InvalidOperation`]: template_values_errors::ErrorKind::InvalidOperation
    /// [`ErrorKind::OutOfMemory`]: template_values_errors::ErrorKind::OutOfMemory
    pub fn apply(
        self,
        alloc: Global,
        view: &CallView<'_>,
        value: &Value,
        arguments: &[Value],
    ) -> Result<Value, Error>
        ensures { Tells result (layout_filtered self (seen_in view.now) value.now arguments.now) }
    {
        match self {
            LayoutFilter::WordCount => words::count_words(alloc, view, value, arguments),
            LayoutFilter::Center => centers::center(alloc, view, value, arguments),
            LayoutFilter::Truncate => truncating::truncate(alloc, view, value, arguments),
            LayoutFilter::StripTags => tags::strip_tags(alloc, view, value, arguments),
            LayoutFilter::WordWrap => wordwrap::word_wrap(alloc, view, value, arguments),
        }
    }
}
