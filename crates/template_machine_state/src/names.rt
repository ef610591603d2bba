//! The names of the templates that were loaded.
ghost use Rattle.std.specs.Prelude.{◌≡◌, reverse};
ghost use Rattle.template_machine_meaning.specs.Blocks.{is_among};
ghost use Rattle.template_machine_meaning.specs.Plans.{outermost};
ghost use Rattle.template_machine_state.specs.Loaded.{names_in};

// Whether one of the names is this one.
pub(crate) fn is_among(names: &[&str], name: &str) -> bool
    ensures { result ≡ is_among name.now (names_in (reverse names.now)) }
{
    let mut left = names.len();
    while left > 0 {
        let place = left - 1;
        if names[place] == name {
            return true;
        }
        left = place;
    }
    false
}

// As many names as there were stay, the outermost ones.
#[tactic(auto, using(crate::proofs::Stacks::names_left))]
pub(crate) fn cut_names<'a>(names: &mut Vec<&'a str>, count: usize)
    ensures { names_in (reverse names.new.items) ≡ outermost count (names_in (reverse names.old.items)) }
{
    names.truncate(count);
}
