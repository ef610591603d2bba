//! What is done with the state that a render left.
use crate::state::State;
use template_callables::Extension;

/// What is done with the state that a render left, which may change, and the text beside it:
/// [`Captured::with_state_mut`](crate::Captured::with_state_mut) hands both to it.
pub trait UsesState<E: Extension> {
    ghost use Rattle.std.specs.Prelude.{ℕ, List};
    ghost use Rattle.template_machine_environment.specs.declared.state.State.{State};

    /// What it answers.
    type Output;

    /// How it and the state before, the text, it and the state afterwards, and its answer belong together.
    ghost uses: { Self → State E E.Callable E.Method E.Formatter E.Join E.Rule → List ℕ
        → Self → State E E.Callable E.Method E.Formatter E.Join E.Rule → Self.Output → Type 0 };

    /// Does it with a state and a text.
    fn with_state<'env, 'source>(
        &mut self,
        state: &mut State<'env, 'source, E>,
        text: &str,
    ) -> Self::Output
        ensures { uses self.old state.old text.now self.new state.new result };
}
