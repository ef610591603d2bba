//! Where rounds are at home.
ghost use Rattle.std.specs.Prelude.{◌≡◌};
ghost use Rattle.template_machine_loops.specs.Rounds.{rounds_in};

use template_machine_tables::Stream;

/// Where the rounds of a loop that may be called again are at home.
#[derive(Clone, Copy)]
pub struct Rounds<'env> {
    /// The stream.
    pub stream: Stream<'env>,
    /// The loop's number in it.
    pub number: usize,
}

impl<'env> Rounds<'env> {
    // The same.
    pub(crate) fn same(&self) -> Rounds<'env>
        ensures { rounds_in result ≡ rounds_in self.now }
    {
        *self
    }
}
