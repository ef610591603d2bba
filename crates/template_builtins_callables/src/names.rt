//! The names of the builtins.
ghost use Rattle.std.specs.Prelude.{◌≡◌};
ghost use Rattle.template_builtins_callables.specs.Builtins as builtins;
ghost use Rattle.template_builtins_callables.specs.Names.{named, rows_of};

use crate::each::EachFilter;
use crate::filter::Filter;
use crate::test::Test;
use template_builtins_decimals::DecimalFilter;
use template_builtins_formats::FormatFilter;
use template_builtins_layout::LayoutFilter;
use template_builtins_lists::ListFilter;
use template_builtins_numbers::ValueFilter;
use template_builtins_pieces::PieceFilter;
use template_builtins_sorting::SortingFilter;
use template_builtins_tests::{Comparison, ValueKind, ValueTest};
use template_builtins_texts::TextFilter;
use template_builtins_web::WebFilter;

/// The filters under their names.
pub const FILTERS: [(&str, Filter); 56] = [
    ("abs", Filter::Value(ValueFilter::Abs)),
    ("attr", Filter::Value(ValueFilter::Attr)),
    ("batch", Filter::List(ListFilter::Batch)),
    ("bool", Filter::Value(ValueFilter::Bool)),
    ("capitalize", Filter::Text(TextFilter::Capitalize)),
    ("center", Filter::Layout(LayoutFilter::Center)),
    ("chain", Filter::List(ListFilter::Chain)),
    ("count", Filter::List(ListFilter::Length)),
    ("d", Filter::Value(ValueFilter::Default)),
    ("default", Filter::Value(ValueFilter::Default)),
    ("dictsort", Filter::Sorting(SortingFilter::DictSort)),
    ("e", Filter::Text(TextFilter::Escape)),
    ("escape", Filter::Text(TextFilter::Escape)),
    (
        "filesizeformat",
        Filter::Decimal(DecimalFilter::FileSizeFormat),
    ),
    ("first", Filter::List(ListFilter::First)),
    ("forceescape", Filter::Text(TextFilter::ForceEscape)),
    ("format", Filter::Format(FormatFilter::Format)),
    ("groupby", Filter::Sorting(SortingFilter::GroupBy)),
    ("indent", Filter::Text(TextFilter::Indent)),
    ("int", Filter::Value(ValueFilter::Int)),
    ("items", Filter::List(ListFilter::Items)),
    ("join", Filter::List(ListFilter::Join)),
    ("last", Filter::List(ListFilter::Last)),
    ("length", Filter::List(ListFilter::Length)),
    ("lines", Filter::Text(TextFilter::Lines)),
    ("list", Filter::List(ListFilter::List)),
    ("lower", Filter::Text(TextFilter::Lower)),
    ("map", Filter::Each(EachFilter::Map)),
    ("max", Filter::Sorting(SortingFilter::Max)),
    ("min", Filter::Sorting(SortingFilter::Min)),
    ("pprint", Filter::Text(TextFilter::PrettyPrint)),
    ("reject", Filter::Each(EachFilter::Reject)),
    ("rejectattr", Filter::Each(EachFilter::RejectAttr)),
    ("replace", Filter::Text(TextFilter::Replace)),
    ("reverse", Filter::List(ListFilter::Reverse)),
    ("round", Filter::Decimal(DecimalFilter::Round)),
    ("safe", Filter::Text(TextFilter::Safe)),
    ("select", Filter::Each(EachFilter::Select)),
    ("selectattr", Filter::Each(EachFilter::SelectAttr)),
    ("slice", Filter::List(ListFilter::Slice)),
    ("sort", Filter::Sorting(SortingFilter::Sort)),
    ("split", Filter::Piece(PieceFilter::Split)),
    ("string", Filter::Text(TextFilter::String)),
    ("striptags", Filter::Layout(LayoutFilter::StripTags)),
    ("sum", Filter::Value(ValueFilter::Sum)),
    ("title", Filter::Text(TextFilter::Title)),
    ("tojson", Filter::Web(WebFilter::ToJson)),
    ("trim", Filter::Text(TextFilter::Trim)),
    ("truncate", Filter::Layout(LayoutFilter::Truncate)),
    ("unique", Filter::Sorting(SortingFilter::Unique)),
    ("upper", Filter::Text(TextFilter::Upper)),
    ("urlencode", Filter::Web(WebFilter::UrlEncode)),
    ("wordcount", Filter::Layout(LayoutFilter::WordCount)),
    ("wordwrap", Filter::Layout(LayoutFilter::WordWrap)),
    ("xmlattr", Filter::Web(WebFilter::XmlAttr)),
    ("zip", Filter::List(ListFilter::Zip)),
];

/// The tests under their names.
pub const TESTS: [(&str, Test); 43] = [
    ("!=", Test::Value(ValueTest::Compare(Comparison::Unequal))),
    ("<", Test::Value(ValueTest::Compare(Comparison::Less))),
    (
        "<=",
        Test::Value(ValueTest::Compare(Comparison::LessOrEqual)),
    ),
    ("==", Test::Value(ValueTest::Compare(Comparison::Equal))),
    (">", Test::Value(ValueTest::Compare(Comparison::Greater))),
    (
        ">=",
        Test::Value(ValueTest::Compare(Comparison::GreaterOrEqual)),
    ),
    ("boolean", Test::Value(ValueTest::Kind(ValueKind::Boolean))),
    ("bytes", Test::Value(ValueTest::Kind(ValueKind::Bytes))),
    (
        "callable",
        Test::Value(ValueTest::Kind(ValueKind::Callable)),
    ),
    ("defined", Test::Value(ValueTest::Kind(ValueKind::Defined))),
    ("divisibleby", Test::Value(ValueTest::DivisibleBy)),
    ("endingwith", Test::Value(ValueTest::EndingWith)),
    ("eq", Test::Value(ValueTest::Compare(Comparison::Equal))),
    (
        "equalto",
        Test::Value(ValueTest::Compare(Comparison::Equal)),
    ),
    ("escaped", Test::Value(ValueTest::Kind(ValueKind::Safe))),
    ("even", Test::Value(ValueTest::Even)),
    ("false", Test::Value(ValueTest::Kind(ValueKind::False))),
    ("filter", Test::Filter),
    ("float", Test::Value(ValueTest::Kind(ValueKind::Float))),
    (
        "ge",
        Test::Value(ValueTest::Compare(Comparison::GreaterOrEqual)),
    ),
    (
        "greaterthan",
        Test::Value(ValueTest::Compare(Comparison::Greater)),
    ),
    ("gt", Test::Value(ValueTest::Compare(Comparison::Greater))),
    ("in", Test::Value(ValueTest::In)),
    ("integer", Test::Value(ValueTest::Kind(ValueKind::Number))),
    (
        "iterable",
        Test::Value(ValueTest::Kind(ValueKind::Iterable)),
    ),
    (
        "le",
        Test::Value(ValueTest::Compare(Comparison::LessOrEqual)),
    ),
    (
        "lessthan",
        Test::Value(ValueTest::Compare(Comparison::Less)),
    ),
    ("lower", Test::Value(ValueTest::Lower)),
    ("lt", Test::Value(ValueTest::Compare(Comparison::Less))),
    ("mapping", Test::Value(ValueTest::Kind(ValueKind::Mapping))),
    ("ne", Test::Value(ValueTest::Compare(Comparison::Unequal))),
    ("none", Test::Value(ValueTest::Kind(ValueKind::None))),
    ("number", Test::Value(ValueTest::Kind(ValueKind::Number))),
    ("odd", Test::Value(ValueTest::Odd)),
    ("safe", Test::Value(ValueTest::Kind(ValueKind::Safe))),
    ("sameas", Test::Value(ValueTest::SameAs)),
    (
        "sequence",
        Test::Value(ValueTest::Kind(ValueKind::Sequence)),
    ),
    ("startingwith", Test::Value(ValueTest::StartingWith)),
    ("string", Test::Value(ValueTest::Kind(ValueKind::String))),
    ("test", Test::Test),
    ("true", Test::Value(ValueTest::Kind(ValueKind::True))),
    (
        "undefined",
        Test::Value(ValueTest::Kind(ValueKind::Undefined)),
    ),
    ("upper", Test::Value(ValueTest::Upper)),
];

/// The filter of a name. Linear in the number of filters.
#[tactic(auto, unfolding(crate::specs::Builtins::filter_named))]
pub fn filter_named(name: &str) -> Option<Filter>
    ensures { result ≡ builtins.filter_named name.now }
{
    look_up(&FILTERS, name)
}

/// The test of a name. Linear in the number of tests.
#[tactic(auto, unfolding(crate::specs::Builtins::test_named))]
pub fn test_named(name: &str) -> Option<Test>
    ensures { result ≡ builtins.test_named name.now }
{
    look_up(&TESTS, name)
}

// What stands first under a name.
fn look_up<K: Copy>(mut table: &[(&str, K)], name: &str) -> Option<K>
    ensures { result ≡ named (rows_of table.entry.now) name.now }
{
    while let [row, rows @ ..] = table {
        if row.0 == name {
            return Some(row.1);
        }
        table = rows;
    }
    None
}
