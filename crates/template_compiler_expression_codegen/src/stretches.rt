//! Arguments as they are passed: a stretch of values before a spread becomes a list, a stretch of names with their values a
//! keyword map.
ghost use Rattle.std.specs.Prelude.{◌≡◌, ◌+◌, [], ◌∷◌, None, Some, if◌then◌else◌, OnOk, IfOk, IfErr};
ghost use Rattle.template_compiler_code.specs.Listing.{code_in, TakesNoMore};
ghost use Rattle.template_compiler_codegen.specs.Expressions.{at_most_one, merged_count};
ghost use Rattle.template_compiler_emission.specs.Puts.{Puts};
ghost use Rattle.template_compiler_expression_codegen.specs.Passing.{listed_code, mapped_code, merged_code, run_code};

use crate::leaves::one_more;
use template_compiler_code::{Instruction, Instructions};
use template_compiler_emission::push;
use template_compiler_tree::Span;
use template_values_errors::ErrorKind;

// Arguments so far: how many lists and spreads there are of those that are passed by their place, or keyword maps and
// spreads of those that are passed by a name; how many values, or entries, come behind the last of them; and whether one
// was a spread.
#[derive(Clone, Copy)]
pub(crate) struct Stretches {
    pub(crate) lists: u16,
    pub(crate) last: u16,
    pub(crate) spread: bool,
}

// Where the next instruction comes from: the span is still to be told where nothing is put since the code was so long.
pub(crate) fn still_from<'a>(
    code: &Instructions<'_>,
    begins: usize,
    from: Option<&'a Span>,
) -> Option<&'a Span> {
    if code.len() == begins { from } else { None }
}

// So many values become a list, if there are any. The answer is how many lists there are then.
pub(crate) fn put_list(
    code: &mut Instructions<'_>,
    lists: u16,
    values: u16,
    from: Option<&Span>,
) -> Result<u16, ErrorKind>
    ensures counted { IfOk result (λ n. n ≡ lists + at_most_one values) }
    ensures put { OnOk result (Puts (listed_code values) code.old code.new) }
    ensures refused { IfErr result (λ kind. TakesNoMore (code_in code.new) (kind ∷ [])) }
{
    if values == 0 {
        return Ok(lists);
    }
    push(code, Instruction::BuildList(Some(values as usize)), from)?;
    one_more(lists)
}

// So many entries become a keyword map, if there are any. The answer is how many maps there are then.
pub(crate) fn put_map(
    code: &mut Instructions<'_>,
    maps: u16,
    entries: u16,
) -> Result<u16, ErrorKind>
    ensures counted { IfOk result (λ n. n ≡ maps + at_most_one entries) }
    ensures put { OnOk result (Puts (mapped_code entries) code.old code.new) }
    ensures refused { IfErr result (λ kind. TakesNoMore (code_in code.new) (kind ∷ [])) }
{
    if entries == 0 {
        return Ok(maps);
    }
    push(code, Instruction::BuildKwargs(entries as usize), None)?;
    one_more(maps)
}

// So many keyword maps become one, where one may be a spread. The answer is how many there are then.
pub(crate) fn put_merged(
    code: &mut Instructions<'_>,
    maps: u16,
    several: bool,
) -> Result<u16, ErrorKind>
    ensures counted { IfOk result (λ n. n ≡ merged_count several maps) }
    ensures put { OnOk result (Puts (merged_code several maps) code.old code.new) }
    ensures refused { IfErr result (λ kind. TakesNoMore (code_in code.new) (kind ∷ [])) }
{
    if !several {
        return Ok(maps);
    }
    push(code, Instruction::MergeKwargs(maps as usize), None)?;
    Ok(1)
}

// So many values stay as they are; where one of the arguments was a spread, they become one counted run with the lists
// before them. The answer is how many values are passed, or none for a run.
pub(crate) fn put_run(
    code: &mut Instructions<'_>,
    lists: u16,
    values: u16,
    spread: bool,
) -> Result<Option<u16>, ErrorKind>
    ensures counted { IfOk result (λ count. count ≡ (if spread then None else Some values)) }
    ensures put { OnOk result (Puts (run_code spread lists values) code.old code.new) }
    ensures refused { IfErr result (λ kind. TakesNoMore (code_in code.new) (kind ∷ [])) }
{
    if !spread {
        return Ok(Some(values));
    }
    let all = put_list(code, lists, values, None)?;
    push(code, Instruction::UnpackLists(all as usize), None)?;
    Ok(None)
}
