//! Which body of a block runs.
ghost use Rattle.std.specs.Prelude.{◌≡◌, ◌==◌, ◌&&◌, ◌∷◌, [], Bool, IfErr, IfNone, IfOk, IfSome, option_and_then, option_map};
ghost use Rattle.template_compiler_code.specs.Listing.{code_in};
ghost use Rattle.template_compiler_code.specs.Streams.{stream_in};
ghost use Rattle.template_values_errors.specs.declared.ErrorKind.TheVariants.{InvalidOperation};
ghost use Rattle.template_machine_tables.specs.Streams.{home_of, stream_of};
ghost use Rattle.template_machine_meaning.specs.Blocks.{super_plan};
ghost use Rattle.template_machine_steps.specs.Performs.{SparesSink};
ghost use Rattle.template_machine_loop.specs.Found.{FindsBehind, FindsBody, IsRefused, RefusesBody};
ghost use Rattle.template_machine_loop.specs.Programs.{block_at, code_at, kept_code, own_code, programs_in, roots_of, standing_of, template_at};

use crate::templates::{Compiled, Program, Templates};
use template_compiler_code::{CompiledBlock, Instructions, block_among};
use template_machine_state::{Body, Home, State, Stream};
use template_values_errors::{Error, ErrorKind};

/// A body of a block.
#[derive(Clone, Copy)]
pub(crate) struct Found<'env> {
    /// The block, of the template that has the body.
    pub(crate) block: &'env CompiledBlock<'env>,
    /// That template.
    pub(crate) home: Home<'env>,
    /// The place, among the bodies of this name, of the one that a call runs.
    pub(crate) place: usize,
}

/// The body that a call of a block runs.
///
/// # Errors
///
/// `UnknownBlock`; and `InvalidOperation` where the only body says that another has to be given.
pub(crate) fn body_to_run<'env, T: Templates>(
    program: Program<'env, '_, T>,
    name: &str,
    state: &State<'env>,
) -> Result<Found<'env>, Error>
    ensures found { let s = programs_in T.standing T.joins T.callables program.entry in
        IfOk result (FindsBody s (T.standing program.entry.templates.now) (roots_of program.entry) state.now name.now) }
    ensures refused { let s = programs_in T.standing T.joins T.callables program.entry in
        IfErr result (RefusesBody s state.now name.now) }
    ensures spares { IfErr result SparesSink }
{
    let Some(body) = state.body(name) else {
        return Err(Error::new(ErrorKind::UnknownBlock));
    };
    let Some(block) = block_at(program, body.home, name) else {
        return Err(Error::new(ErrorKind::InvalidOperation));
    };
    if lacks_body(body, block) {
        return Err(Error::new(ErrorKind::InvalidOperation));
    }
    Ok(Found {
        block,
        home: body.home,
        place: body.place,
    })
}

/// The body behind the one of the block that runs; none where no block runs, or there is none.
pub(crate) fn body_behind<'env, T: Templates>(
    program: Program<'env, '_, T>,
    state: &State<'env>,
) -> Option<Found<'env>>
    ensures found { let s = programs_in T.standing T.joins T.callables program.entry in
        IfSome result (FindsBehind s (T.standing program.entry.templates.now) (roots_of program.entry) state.now) }
    ensures none { let s = programs_in T.standing T.joins T.callables program.entry in
        IfNone result ((named : Bool) → IsRefused s (super_plan s.around state.now named) state.now (InvalidOperation ∷ [])) }
{
    let Some(name) = state.block() else {
        return None;
    };
    let Some(behind) = state.home_behind(name) else {
        return None;
    };
    let Some(block) = block_at(program, behind.home, name) else {
        return None;
    };
    Some(Found {
        block,
        home: behind.home,
        place: behind.place,
    })
}

// Whether the only body says that another has to be given.
fn lacks_body(body: Body<'_>, block: &CompiledBlock<'_>) -> bool
    ensures { result ≡ (body.entry.count == 1 && block.now.required) }
{
    body.count == 1 && block.required
}

// The block of a name that a home's template has.
fn block_at<'env, T: Templates>(
    program: Program<'env, '_, T>,
    home: Home<'env>,
    name: &str,
) -> Option<&'env CompiledBlock<'env>>
    ensures { option_map (λ b. stream_in b.now) result ≡
        block_at (T.standing program.entry.templates.now) (roots_of program.entry) (home_of home.entry) name.now }
{
    match template_at(program, home) {
        Some(template) => block_among(template.blocks, name),
        None => None,
    }
}

// The template at a home.
fn template_at<'env, T: Templates>(
    program: Program<'env, '_, T>,
    home: Home<'env>,
) -> Option<Compiled<'env>>
    ensures { option_map standing_of result ≡
        template_at (T.standing program.entry.templates.now) (roots_of program.entry) (home_of home.entry) }
{
    match home {
        Home::Rendered => program.root,
        Home::Standing(name) => program.templates.get(name),
        Home::Kept(_) => None,
    }
}

// The code of a home's own stream.
fn own_code<'env, T: Templates>(
    program: Program<'env, '_, T>,
    home: Home<'env>,
) -> Option<&'env Instructions<'env>>
    ensures { option_map (λ code. code_in code.now) result ≡
        own_code (T.standing program.entry.templates.now) (roots_of program.entry) (home_of home.entry) }
{
    if let Home::Kept(number) = home {
        return kept_code(program, number);
    }
    match template_at(program, home) {
        Some(template) => Some(template.code),
        None => None,
    }
}

// The code of the stream that was handed in, if it has this number.
fn kept_code<'env, T: Templates>(
    program: Program<'env, '_, T>,
    number: usize,
) -> Option<&'env Instructions<'env>>
    ensures { option_map (λ code. code_in code.now) result ≡ option_and_then (kept_code number) (roots_of program.entry).kept }
{
    let kept = program.kept?;
    if kept.number == number {
        Some(kept.code)
    } else {
        None
    }
}

/// The code of a stream.
pub(crate) fn code_of_stream<'env, T: Templates>(
    program: Program<'env, '_, T>,
    stream: Stream<'env>,
) -> Option<&'env Instructions<'env>>
    ensures { option_map (λ code. code_in code.now) result ≡
        code_at (T.standing program.entry.templates.now) (roots_of program.entry) (stream_of stream.entry) }
{
    match stream.block {
        Some(name) => match block_at(program, stream.home, name) {
            Some(block) => Some(&block.instructions),
            None => None,
        },
        None => own_code(program, stream.home),
    }
}
