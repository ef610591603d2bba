//! What stays of loops whose frames go.
ghost use Rattle.std.specs.Prelude.{◌≡◌, ◌+◌, ◌<◌, ◌≤◌, ◌++◌, ◌∷◌, [], IfSome, IsSome, IsTrue, length, vec_len};
ghost use Rattle.std.specs.Vec.{vec_capacity};
ghost use Rattle.template_machine_meaning.specs.Leaving.{given_behind, held_among};
ghost use Rattle.template_machine_meaning.specs.Plans.{outermost};
ghost use Rattle.template_machine_meaning.specs.World.{drop_given};
ghost use Rattle.template_machine_frames.specs.Frames.{around_innermost, innermost_loop};
ghost use Rattle.template_machine_state.specs.Cuts.{CutOne, loops_cut};
ghost use Rattle.template_machine_state.specs.Room.{HasRoom};

use template_machine_frames::{Context, LoopState};
use template_machine_tables::Given;

// There is room to keep as many loops as there are frames, and one more, where one is opened that may have to be kept; tells
// whether memory was given. Mostly there is room, or no loop that has its variable.
#[inline(always)]
pub(crate) fn make_room(closed: &mut Vec<LoopState<'_>>, frames: usize, variable: bool) -> bool
    ensures items { closed.new.items ≡ closed.old.items }
    ensures len { vec_len closed.new ≡ vec_len closed.old }
    ensures capacity { vec_capacity closed.old ≤ vec_capacity closed.new }
    ensures room { IsTrue result → IsTrue variable → frames + 1 + vec_len closed.new ≤ vec_capacity closed.new }
{
    if !variable {
        return true;
    }
    let Some(more) = frames.checked_add(1) else {
        return false;
    };
    closed.reserve(more).is_ok()
}

// So many frames stay, the outermost ones. Of the others, the innermost first, a loop stays known that is one of so many that
// were opened first, and has its variable; what `changed` was called with for another one is forgotten. Linear in the frames that
// go.
pub(crate) fn cut_frames<'env>(
    ctx: &mut Context<'env>,
    given: &mut Given,
    closed: &mut Vec<LoopState<'env>>,
    held: usize,
    count: usize,
)
    requires { HasRoom ctx.old.frames closed.old }
    ensures frames { outermost count ctx.new.frames ≡ outermost count ctx.old.frames }
    ensures closures { ctx.new.closures ≡ ctx.old.closures }
    ensures forgotten { given.new ≡ given_behind held (loops_cut count ctx.old.frames) given.old }
    ensures kept { closed.new.items ≡ closed.old.items ++ held_among held (loops_cut count ctx.old.frames) }
    ensures room { HasRoom ctx.new.frames closed.new }
{
    while ctx.frames() > count {
        cut_innermost(ctx, given, closed, held);
    }
}

// The same of the innermost frame.
#[tactic(auto, using(crate::proofs::Cutting::cut_plain))]
fn cut_innermost<'env>(
    ctx: &mut Context<'env>,
    given: &mut Given,
    closed: &mut Vec<LoopState<'env>>,
    held: usize,
)
    requires some { 0 < length ctx.old.frames }
    requires room { HasRoom ctx.old.frames closed.old }
    ensures { CutOne held ctx.old given.old closed.old ctx.new given.new closed.new }
{
    if ctx.has_loop() {
        cut_loop(ctx, given, closed, held);
    } else {
        ctx.pop_frame();
    }
}

// The same where that is a loop's.
#[inline(always)]
#[tactic(auto, using(crate::proofs::Cutting::cut_kept, crate::proofs::Cutting::cut_forgotten, crate::proofs::Cutting::room_there))]
pub(crate) fn cut_loop<'env>(
    ctx: &mut Context<'env>,
    given: &mut Given,
    closed: &mut Vec<LoopState<'env>>,
    held: usize,
)
    requires some { IsSome (innermost_loop ctx.old.frames) }
    requires room { HasRoom ctx.old.frames closed.old }
    ensures { CutOne held ctx.old given.old closed.old ctx.new given.new closed.new }
{
    if ctx.has_variable_below(held) {
        keep_loop(ctx, closed);
    } else {
        forget_given(given, ctx);
        ctx.pop_frame();
    }
}

// The innermost frame goes, and its loop stays known. There is room for it.
#[cold]
#[inline(never)]
fn keep_loop<'env>(ctx: &mut Context<'env>, closed: &mut Vec<LoopState<'env>>)
    requires some { IsSome (innermost_loop ctx.old.frames) }
    requires room { vec_len closed.old < vec_capacity closed.old }
    ensures frames { ctx.new ≡ record ctx.old { frames = around_innermost ctx.old.frames } }
    ensures kept { IfSome (innermost_loop ctx.old.frames) (λ l. closed.new.items ≡ closed.old.items ++ l ∷ []) }
    ensures len { vec_len closed.new ≡ vec_len closed.old + 1 }
    ensures capacity { vec_capacity closed.new ≡ vec_capacity closed.old }
{
    let Some(current) = ctx.pop_loop() else {
        unreachable!()
    };
    closed.push_reserved(current);
}

// What `changed` was called with for the loop of the innermost frame is forgotten. Mostly there is nothing, which is seen
// without a call.
#[inline(always)]
fn forget_given(given: &mut Given, ctx: &Context<'_>)
    ensures { IfSome (innermost_loop ctx.now.frames) (λ l. given.new ≡ drop_given l.number given.old) }
{
    if !given.is_empty() {
        forget_innermost(given, ctx);
    }
}

// The same where something is kept.
#[cold]
#[inline(never)]
fn forget_innermost(given: &mut Given, ctx: &Context<'_>)
    ensures { IfSome (innermost_loop ctx.now.frames) (λ l. given.new ≡ drop_given l.number given.old) }
{
    if let Some(number) = ctx.loop_number() {
        given.forget(number);
    }
}
