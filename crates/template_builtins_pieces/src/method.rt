//! Python's methods of texts that cut and pad them.
ghost use Rattle.template_builtins_arguments.specs.Answers.{Tells};
ghost use Rattle.template_builtins_pieces.specs.Answers.{piece_made};
ghost use Rattle.template_callables.specs.Views.{seen_in};

use crate::padding::Place;
use crate::splitting::Side;
use crate::{affixes, joining, padding, partitions, replacing, splitting};
use std::alloc::Global;
use template_callables::CallView;
use template_values_core::Value;
use template_values_errors::Error;

/// Python's methods of texts that cut, pad and join them.
#[derive(Clone, Copy)]
pub enum PieceMethod {
    /// A list of the parts between separators, or of the words, cut from the left.
    Split,
    /// The same, cut from the right.
    RSplit,
    /// A list of the lines.
    SplitLines,
    /// What is before the first separator, that, and what is behind it.
    Partition,
    /// What is before the last separator, that, and what is behind it.
    RPartition,
    /// Each `old` by `new`, at most `count`.
    Replace,
    /// Without a text at the start.
    RemovePrefix,
    /// Without a text at the end.
    RemoveSuffix,
    /// In the middle of `width` characters.
    Center,
    /// At the left of `width` characters.
    LJust,
    /// At the right of `width` characters.
    RJust,
    /// Behind so many zeros, but for a sign, that it has `width` characters.
    ZFill,
    /// Texts with this one between them.
    Join,
}

impl PieceMethod {
    /// What the method makes of a text and the arguments after it: plain texts. Linear in the texts.
    ///
    /// # Errors
    ///
    /// - [`ErrorKind::TooManyArguments`], then [`ErrorKind::MissingArgument`], by the arguments that the method has; they are given by
    ///   place alone, but for `Split` and `RSplit`.
    /// - [`ErrorKind::InvalidOperation`], if the value is no text, or an argument is of a wrong kind or size.
    /// - [`ErrorKind::UndefinedError`] where undefined values may not be gone over, and `Join` is to.
    /// - [`ErrorKind::OutOfMemory`]
    ///
    /// [`ErrorKind::TooManyArguments`]: template_values_errors::ErrorKind::TooManyArguments
    /// [`ErrorKind::MissingArgument`]: template_values_errors::ErrorKind::MissingArgument
    /// [`ErrorKind::InvalidOperation`]: template_values_errors::ErrorKind::InvalidOperation
    /// [`ErrorKind::UndefinedError`]: template_values_errors::ErrorKind::UndefinedError
    /// [`ErrorKind::OutOfMemory`]: template_values_errors::ErrorKind::OutOfMemory
    pub fn apply(
        self,
        alloc: Global,
        view: &CallView<'_>,
        value: &Value,
        arguments: &[Value],
    ) -> Result<Value, Error>
        ensures { Tells result (piece_made self (seen_in view.now) value.now arguments.now) }
    {
        match self {
            PieceMethod::Split => splitting::split_method(alloc, Side::Left, value, arguments),
            PieceMethod::RSplit => splitting::split_method(alloc, Side::Right, value, arguments),
            PieceMethod::SplitLines => splitting::split_lines(alloc, value, arguments),
            PieceMethod::Partition => partitions::partition(alloc, Side::Left, value, arguments),
            PieceMethod::RPartition => partitions::partition(alloc, Side::Right, value, arguments),
            PieceMethod::Replace => replacing::replace(alloc, value, arguments),
            PieceMethod::RemovePrefix => affixes::remove_prefix(alloc, value, arguments),
            PieceMethod::RemoveSuffix => affixes::remove_suffix(alloc, value, arguments),
            PieceMethod::Center => padding::pad(alloc, Place::Middle, value, arguments),
            PieceMethod::LJust => padding::pad(alloc, Place::Left, value, arguments),
            PieceMethod::RJust => padding::pad(alloc, Place::Right, value, arguments),
            PieceMethod::ZFill => padding::zero_fill(alloc, value, arguments),
            PieceMethod::Join => joining::join(alloc, view, value, arguments),
        }
    }
}
