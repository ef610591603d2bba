//! The names of the methods.
ghost use Rattle.std.specs.Prelude.{◌≡◌};
ghost use Rattle.template_builtins_methods.specs.Methods as methods;

use crate::lists::ListMethod;
use crate::maps::MapMethod;
use crate::texts::TextMethod;
use template_builtins_fields::FieldMethod;
use template_builtins_pieces::PieceMethod;

/// The methods of texts under their names.
pub const TEXT_METHODS: [(&str, TextMethod); 20] = [
    ("capitalize", TextMethod::Capitalize),
    ("count", TextMethod::Count),
    ("endswith", TextMethod::EndsWith),
    ("find", TextMethod::Find),
    ("index", TextMethod::Index),
    ("isalnum", TextMethod::IsAlnum),
    ("isalpha", TextMethod::IsAlpha),
    ("isdigit", TextMethod::IsDigit),
    ("islower", TextMethod::IsLower),
    ("isspace", TextMethod::IsSpace),
    ("isupper", TextMethod::IsUpper),
    ("lower", TextMethod::Lower),
    ("lstrip", TextMethod::LStrip),
    ("rfind", TextMethod::RFind),
    ("rstrip", TextMethod::RStrip),
    ("startswith", TextMethod::StartsWith),
    ("strip", TextMethod::Strip),
    ("swapcase", TextMethod::SwapCase),
    ("title", TextMethod::Title),
    ("upper", TextMethod::Upper),
];

/// The methods that cut, pad and join texts, under their names.
pub const PIECE_METHODS: [(&str, PieceMethod); 13] = [
    ("center", PieceMethod::Center),
    ("join", PieceMethod::Join),
    ("ljust", PieceMethod::LJust),
    ("partition", PieceMethod::Partition),
    ("removeprefix", PieceMethod::RemovePrefix),
    ("removesuffix", PieceMethod::RemoveSuffix),
    ("replace", PieceMethod::Replace),
    ("rjust", PieceMethod::RJust),
    ("rpartition", PieceMethod::RPartition),
    ("rsplit", PieceMethod::RSplit),
    ("split", PieceMethod::Split),
    ("splitlines", PieceMethod::SplitLines),
    ("zfill", PieceMethod::ZFill),
];

/// The methods that fill fields of texts in, under their names.
pub const FIELD_METHODS: [(&str, FieldMethod); 1] = [("format", FieldMethod::Format)];

/// The methods of maps and keyword maps under their names.
pub const MAP_METHODS: [(&str, MapMethod); 4] = [
    ("get", MapMethod::Get),
    ("items", MapMethod::Items),
    ("keys", MapMethod::Keys),
    ("values", MapMethod::Values),
];

/// The methods of lists and tuples under their names.
pub const LIST_METHODS: [(&str, ListMethod); 2] = [
    ("count", ListMethod::Count),
    ("index", ListMethod::Index),
];

#[tactic(auto, unfolding(crate::specs::Methods::text_method))]
pub(crate) fn text_method(name: &str) -> Option<TextMethod>
    ensures { result ≡ methods.text_method name.now }
{
    look_up(&TEXT_METHODS, name)
}

#[tactic(auto, unfolding(crate::specs::Methods::piece_method))]
pub(crate) fn piece_method(name: &str) -> Option<PieceMethod>
    ensures { result ≡ methods.piece_method name.now }
{
    look_up(&PIECE_METHODS, name)
}

#[tactic(auto, unfolding(crate::specs::Methods::field_method))]
pub(crate) fn field_method(name: &str) -> Option<FieldMethod>
    ensures { result ≡ methods.field_method name.now }
{
    look_up(&FIELD_METHODS, name)
}

#[tactic(auto, unfolding(crate::specs::Methods::map_method))]
pub(crate) fn map_method(name: &str) -> Option<MapMethod>
    ensures { result ≡ methods.map_method name.now }
{
    look_up(&MAP_METHODS, name)
}

#[tactic(auto, unfolding(crate::specs::Methods::list_method))]
pub(crate) fn list_method(name: &str) -> Option<ListMethod>
    ensures { result ≡ methods.list_method name.now }
{
    look_up(&LIST_METHODS, name)
}

// What stands first under a name. Linear in the number of rows.
fn look_up<K: Copy>(mut table: &[(&str, K)], name: &str) -> Option<K>
    ensures { result ≡ methods.named (methods.rows_of table.entry.now) name.now }
{
    while let [row, rows @ ..] = table {
        if row.0 == name {
            return Some(row.1);
        }
        table = rows;
    }
    None
}
