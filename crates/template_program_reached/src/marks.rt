//! What the main template reaches.
ghost use Rattle.std.specs.Prelude.{◌≡◌, ℕ, ◌<◌, ◌∷◌, [], List, length, false, get_or, IfOk, IfErr, IfSome, OnOk};
ghost use Rattle.std.specs.Bool.{Decides};
ghost use Rattle.std.specs.List.{Contains};
ghost use Rattle.template_values_errors.specs.Memory.{NoMemory};
ghost use Rattle.template_program_reached.specs.Loaded.{IsLoading};
ghost use Rattle.template_program_reached.specs.Places.{Comes, IsLast, IsMarked, Reaches, TellPlaces, kept_of};
ghost use Rattle.template_program_reached.specs.Reached.{IsReached};
ghost use Rattle.template_program_reached.specs.Views.{names_in, texts_in};

use crate::loaded::loaded_names;
use crate::places::place_of;
use std::alloc::Global;
use std::collections::BTreeMap;
use template_compiler_syntax::{SyntaxConfig, one_list_of_tokens};
use template_values_errors::Error;

// What is reached so far: a mark for each place, and the places in the order in which they were reached.
#[derive(Drop)]
struct Found {
    marks: Vec<bool>,
    order: Vec<usize>,
}

/// A mark for each template: of those that are the last of their names, whether the main one reaches it. Each one that it
/// reaches is read once.
pub(crate) fn reached(
    alloc: Global,
    templates: &[(String, String)],
    places: &BTreeMap<&str, usize>,
    main: &str,
    syntax: &SyntaxConfig,
) -> Result<Vec<bool>, Error>
    requires { TellPlaces places.now (texts_in templates.now) (length templates.now) }
    ensures length { IfOk result (λ marks. length marks.items ≡ length templates.now) }
    ensures marked { IfOk result (λ marks. (i : ℕ) (name : List ℕ) → IsLast (texts_in templates.now) (length templates.now) name i
        → Decides (get_or marks.items i false) (IsReached syntax.now (texts_in templates.now) main.now name)) }
    ensures refused { IfErr result NoMemory }
{
    one_list_of_names(syntax);
    let mut found = nothing(alloc, templates.len())?;
    reach(places, main, &mut found)?;
    let mut next = 0;
    while next < found.order.len() {
        let place = found.order[next];
        let names = loaded_names(alloc, templates[place].1.as_str(), syntax.clone()?)?;
        reach_all(places, names.as_slice(), &mut found)?;
        next += 1;
    }
    let Found { marks, order: _ } = found;
    Ok(marks)
}

// A source loads templates by one list of names.
fn one_list_of_names(syntax: &SyntaxConfig)
    ensures { (source : List ℕ) (names others : List (List ℕ)) → IsLoading syntax.now source names
        → IsLoading syntax.now source others → names ≡ others }
{
    one_list_of_tokens();
    let _delimiters = syntax.block_delimiters();
}

// No mark, of so many.
fn nothing(alloc: Global, count: usize) -> Result<Found, Error>
    ensures length { IfOk result (λ found. length found.marks.items ≡ count) }
    ensures marked { IfOk result (λ found. IsMarked found.marks.items found.order.items) }
    ensures order { IfOk result (λ found. found.order.items ≡ []) }
    ensures refused { IfErr result NoMemory }
{
    Ok(Found {
        marks: vec![in alloc; false; count]?,
        order: Vec::new(alloc),
    })
}

// The templates of the names are reached, where they are at hand.
fn reach_all(
    places: &BTreeMap<&str, usize>,
    names: &[String],
    found: &mut Found,
) -> Result<(), Error>
    requires within { (name : List ℕ) → IfSome (kept_of name places.now) (λ i. i < length found.old.marks.items) }
    requires marked { IsMarked found.old.marks.items found.old.order.items }
    ensures reached { OnOk result (Reaches places.now (names_in names.now) found.old.order.items found.new.order.items) }
    ensures marked { OnOk result (IsMarked found.new.marks.items found.new.order.items) }
    ensures length { length found.new.marks.items ≡ length found.old.marks.items }
    ensures refused { IfErr result NoMemory }
{
    for name in names {
        reach(places, name.as_str(), found)?;
    }
    Ok(())
}

// The template of the name is reached, where it is at hand.
fn reach(places: &BTreeMap<&str, usize>, name: &str, found: &mut Found) -> Result<(), Error>
    requires within { (name : List ℕ) → IfSome (kept_of name places.now) (λ i. i < length found.old.marks.items) }
    requires marked { IsMarked found.old.marks.items found.old.order.items }
    ensures reached { OnOk result (Reaches places.now (name.now ∷ []) found.old.order.items found.new.order.items) }
    ensures marked { OnOk result (IsMarked found.new.marks.items found.new.order.items) }
    ensures length { length found.new.marks.items ≡ length found.old.marks.items }
    ensures refused { IfErr result NoMemory }
{
    match place_of(places, name) {
        Some(place) => {
            mark(place, found)?;
            Ok(())
        }
        None => Ok(()),
    }
}

// The template at the place is reached, and comes behind the others if it was not.
fn mark(place: usize, found: &mut Found) -> Result<(), Error>
    requires within { place < length found.old.marks.items }
    requires marked { IsMarked found.old.marks.items found.old.order.items }
    ensures came { OnOk result (Comes place found.old.order.items found.new.order.items) }
    ensures marked { OnOk result (IsMarked found.new.marks.items found.new.order.items) }
    ensures length { length found.new.marks.items ≡ length found.old.marks.items }
    ensures refused { IfErr result NoMemory }
{
    if found.marks[place] {
        return Ok(());
    }
    found.order.push(place)?;
    found.marks[place] = true;
    Ok(())
}
