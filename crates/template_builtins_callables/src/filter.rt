//! Filters, of each subject.
ghost use Rattle.std.specs.Prelude.{◌≡◌};
ghost use Rattle.template_builtins_arguments.specs.Answers.{Tells};
ghost use Rattle.template_builtins_callables.specs.Filtered.{alone_filtered, applies_other, few, filtered};
ghost use Rattle.template_callables.specs.Views.{seen_in};

use crate::each::{EachFilter, list_of};
use crate::naming::{filter_by, is_alone};
use std::alloc::Global;
use template_builtins_arguments::items_of;
use template_builtins_decimals::DecimalFilter;
use template_builtins_formats::FormatFilter;
use template_builtins_layout::LayoutFilter;
use template_builtins_lists::ListFilter;
use template_builtins_numbers::ValueFilter;
use template_builtins_pieces::PieceFilter;
use template_builtins_sorting::SortingFilter;
use template_builtins_texts::TextFilter;
use template_builtins_web::WebFilter;
use template_callables::CallView;
use template_values_core::Value;
use template_values_errors::{Error, ErrorKind};
use template_values_model::DEPTH_LIMIT;

/// A builtin filter.
#[derive(Clone, Copy)]
pub enum Filter {
    /// Of texts.
    Text(TextFilter),
    /// That lays a text out.
    Layout(LayoutFilter),
    /// That cuts a text.
    Piece(PieceFilter),
    /// That fills a format in.
    Format(FormatFilter),
    /// For pages and for what is read by others.
    Web(WebFilter),
    /// Of lists.
    List(ListFilter),
    /// That goes by an order.
    Sorting(SortingFilter),
    /// Of numbers and of any value.
    Value(ValueFilter),
    /// Of decimals.
    Decimal(DecimalFilter),
    /// That goes over the items of a value.
    Each(EachFilter),
}

impl Filter {
    /// What the filter makes of a value and the arguments after it.
    ///
    /// # Errors
    ///
    /// Those of the filter, and [`ErrorKind::OutOfMemory`](template_values_errors::ErrorKind::OutOfMemory).
    pub fn apply(
        self,
        alloc: Global,
        view: &CallView<'_>,
        value: &Value,
        arguments: &[Value],
    ) -> Result<Value, Error>
        ensures { Tells result (filtered self (seen_in view.now) value.now arguments.now) }
    {
        let Some((name, rest)) = arguments.split_first() else {
            return self.apply_alone(alloc, view, value, arguments);
        };
        if !self.applies_other(name, rest) {
            return self.apply_alone(alloc, view, value, arguments);
        }
        few(rest)?;
        let items = items_of(alloc, view, value)?;
        let other = filter_by(name)?;
        let mut made = Vec::with_capacity(alloc, items.len())?;
        for item in &items {
            made.push(other.apply(alloc, view, item, rest)?)?;
        }
        list_of(alloc, made)
    }

    // Whether the first of the arguments is the name of a filter that this one applies.
    fn applies_other(self, name: &Value, rest: &[Value]) -> bool
        ensures { result ≡ applies_other self name.now rest.now }
    {
        match self {
            Filter::Each(EachFilter::Map) => !is_alone(name, rest),
            _ => false,
        }
    }

    // What is made without another filter.
    fn apply_alone(
        self,
        alloc: Global,
        view: &CallView<'_>,
        value: &Value,
        arguments: &[Value],
    ) -> Result<Value, Error>
        ensures { Tells result (alone_filtered self (seen_in view.now) value.now arguments.now) }
    {
        match self {
            Filter::Text(filter) => filter.apply(alloc, view, value, arguments),
            Filter::Layout(filter) => filter.apply(alloc, view, value, arguments),
            Filter::Piece(filter) => filter.apply(alloc, view, value, arguments),
            Filter::Format(filter) => filter.apply(alloc, view, value, arguments),
            Filter::Web(filter) => filter.apply(alloc, view, value, arguments),
            Filter::List(filter) => filter.apply(alloc, view, value, arguments),
            Filter::Sorting(filter) => filter.apply(alloc, view, value, arguments),
            Filter::Value(filter) => filter.apply(alloc, view, value, arguments),
            Filter::Decimal(filter) => filter.apply(alloc, view, value, arguments),
            Filter::Each(filter) => filter.apply(alloc, view, value, arguments),
        }
    }
}

// Filters within filters are taken one in another: so there are at most so many as values may nest deep.
fn few(rest: &[Value]) -> Result<(), Error>
    ensures { Tells result (few rest.now) }
{
    if rest.len() <= DEPTH_LIMIT as usize {
        Ok(())
    } else {
        Err(Error::new(ErrorKind::TooManyArguments))
    }
}
