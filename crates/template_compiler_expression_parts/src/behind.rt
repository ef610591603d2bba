//! What repetitions put together.
ghost use Rattle.std.specs.Prelude.{◌≡◌, IfOk, [], ◌∷◌, ◌++◌};
ghost use Rattle.template_compiler_grammar.specs.Nodes.{and_placed_pair, and_placed_written};
ghost use Rattle.template_compiler_grammar.specs.Views.{node_of, placed_argument_of};
ghost use Rattle.template_compiler_expression_parts.specs.Parsed.{paired_in, written_in};

use std::alloc::AllocError;
use template_compiler_tree::{CallArg, Expr};

/// What stands behind a value in a repetition.
#[derive(Drop)]
pub enum Behind<'source> {
    /// The value with what goes on with it.
    Goes(Expr<'source>),
    /// The value: nothing goes on with it.
    Stops(Expr<'source>),
}

/// The keys and the values of a map, as far as they are read.
#[derive(Drop)]
pub struct Pairs<'source> {
    pub keys: Vec<Expr<'source>>,
    pub values: Vec<Expr<'source>>,
}

impl<'source> Pairs<'source> {
    /// Puts a key and its value behind the others.
    #[tactic(auto, using(crate::proofs::Pushes::expressions_push, crate::proofs::Pushes::places_push))]
    pub fn push(&mut self, key: Expr<'source>, value: Expr<'source>) -> Result<(), AllocError>
        ensures { IfOk result (λ _. paired_in self.new ≡ and_placed_pair (paired_in self.old) (node_of key.entry)
            (node_of value.entry)) }
    {
        put(&mut self.keys, key)?;
        put(&mut self.values, value)
    }
}

/// Arguments, as far as they are read: those by place and those by keyword.
#[derive(Drop)]
pub struct Written<'source> {
    pub by_place: Vec<CallArg<'source>>,
    pub by_keyword: Vec<CallArg<'source>>,
}

impl<'source> Written<'source> {
    /// Puts an argument behind the others of its kind.
    #[tactic(auto, using(crate::proofs::Pushes::arguments_push, crate::proofs::Pushes::argument_places_push))]
    pub fn push(&mut self, argument: CallArg<'source>) -> Result<(), AllocError>
        ensures { IfOk result (λ _. written_in self.new ≡ and_placed_written (written_in self.old) (placed_argument_of argument.entry)) }
    {
        match argument {
            CallArg::Pos(expr) => put(&mut self.by_place, CallArg::Pos(expr)),
            CallArg::PosSplat(expr) => put(&mut self.by_place, CallArg::PosSplat(expr)),
            CallArg::Kwarg(name, expr) => put(&mut self.by_keyword, CallArg::Kwarg(name, expr)),
            CallArg::KwargSplat(expr) => put(&mut self.by_keyword, CallArg::KwargSplat(expr)),
        }
    }
}

// Puts an item behind the others. Where memory is refused it is dropped here, so that no caller holds it.
fn put<T: Drop>(items: &mut Vec<T>, item: T) -> Result<(), AllocError>
    ensures { IfOk result (λ _. items.new.items ≡ items.old.items ++ item ∷ []) }
{
    items.push(item)?;
    Ok(())
}
