//! Numbers for the states of renders: each is given once.

ghost use Rattle.std.specs.Prelude.{◌≡◌, ◌+◌, ◌<◌, ◌↔◌, ◌∷◌, [], IfOk, IfErr, OnOk, OnErr, IsErr};

use std::marker::Model;
use template_values_errors::{Error, ErrorKind};

/// Gives out numbers in order, each once. A contract sees the number that comes next.
#[derive(Drop)]
pub struct StateIds {
    following: u64,
}

impl Model for StateIds {
    ghost use Rattle.std.specs.Prelude.{ℕ};

    ghost Value = { ℕ };

    ghost view = { λ ids. ids.following };
}

impl StateIds {
    /// Numbers from `first` on.
    pub fn new(first: u64) -> StateIds
        ensures { result ≡ first }
    {
        StateIds { following: first }
    }

    /// The next number. `u64::MAX` is never given.
    ///
    /// # Errors
    ///
    /// [`ErrorKind::InvalidOperation`] alone where none but `u64::MAX` is left, and from then on.
    pub fn next(&mut self) -> Result<u64, Error>
        ensures given { IfOk result (λ id. id ≡ self.old) }
        ensures advanced { OnOk result (self.new ≡ self.old + 1) }
        ensures never_last { IfOk result (λ id. id < u64.MAX) }

        ensures at_the_end { IsErr result ↔ (self.old ≡ u64.MAX) }
        ensures refusal { IfErr result (λ error. error ≡ ErrorKind.InvalidOperation ∷ []) }
        ensures kept { OnErr result (self.new ≡ self.old) }
    {
        if self.following == u64::MAX {
            return Err(Error::new(ErrorKind::InvalidOperation));
        }
        let id = self.following;
        self.following += 1;
        Ok(id)
    }
}
