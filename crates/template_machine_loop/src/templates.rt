//! The templates that stand, and what runs.
ghost use Rattle.std.specs.Prelude.{◌≡◌, ℕ, Ok, Err, List, Option, IfOk, IfErr, IfSome, option_map, ⊤};
ghost use Rattle.std.specs.Cow.{cow_str_bytes};
ghost use Rattle.template_machine_going.specs.Told.{FaultsSo};

use std::alloc::AllocError;
use std::borrow::CowStr;
use template_callables::Callbacks;
use template_compiler_code::{CompiledBlock, Instructions};
use template_machine_calls::Rules;
use template_machine_going::Stop;
use template_values_errors::AutoEscape;

/// A template that stands, or the one that is rendered.
#[derive(Clone, Copy)]
pub struct Compiled<'env> {
    /// Its name.
    pub name: &'env str,
    /// Its code.
    pub code: &'env Instructions<'env>,
    /// The escape that it runs under.
    pub escape: AutoEscape,
    /// Its blocks, in order.
    pub blocks: &'env [CompiledBlock<'env>],
}

/// A stream that was handed in.
#[derive(Clone, Copy)]
pub struct Kept<'env> {
    /// Its number among such.
    pub number: usize,
    /// Its code.
    pub code: &'env Instructions<'env>,
}

/// The templates that stand, by their names; which names are meant by those that stand in templates; and what a user's own
/// answers where they call it.
pub trait Templates: Callbacks {
    ghost use Rattle.template_callables.specs.Joins.{Joins};
    ghost use Rattle.template_machine_loop.specs.Programs.{Standing, standing_of};

    ghost standing: { Self → List ℕ → Option Standing };

    ghost joins: { Self → Joins };

    /// The template of a name.
    fn get(&self, name: &str) -> Option<Compiled<'_>>
        ensures found { option_map standing_of result ≡ standing self.now name.now }
        ensures named { IfSome result (λ found. found.name.now ≡ name.now) };

    /// The name that is meant by a name which stands in the template of the name `parent`.
    ///
    /// # Errors
    ///
    /// The fault that a user's own states; and want of memory.
    fn join<'a>(&self, name: &'a str, parent: &str) -> Result<CowStr<'a>, Stop>
        ensures joined { IfOk result (λ joined. joins self.now name.now parent.now ≡ Ok (cow_str_bytes joined)) }
        ensures refused { IfErr result (FaultsSo (λ kinds. joins self.now name.now parent.now ≡ Err kinds)) };
}

/// What runs: the templates that stand, with what a user's own answers; the one that is rendered, if one is; the stream that was
/// handed in, if one was; and the rules.
pub struct Program<'env, 'r, T> {
    /// The templates that stand.
    pub templates: &'env T,
    /// The template that is rendered.
    pub root: Option<Compiled<'env>>,
    /// The stream that was handed in.
    pub kept: Option<Kept<'env>>,
    /// What the run keeps to.
    pub rules: Rules<'r>,
}

impl<'env, 'r, T> Clone for Program<'env, 'r, T> {
    ghost is_clone = { λ p q. q ≡ p };

    ghost is_infallible = { λ _. ⊤ };

    fn clone(&self) -> Result<Program<'env, 'r, T>, AllocError> {
        Ok(*self)
    }
}

impl<'env, 'r, T> Copy for Program<'env, 'r, T> {}
