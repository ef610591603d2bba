//! Where a run goes on.
ghost use Rattle.std.specs.Prelude.{◌≡◌};
ghost use Rattle.template_machine_steps.specs.Performs.{behind};

/// Where a run goes on behind an instruction.
#[derive(Clone, Copy, Debug, PartialEq, Eq)]
pub enum Way {
    /// At the instruction behind it.
    Behind,
    /// At a place in the code.
    At(u32),
}

/// What came of an instruction that is done at once, where it can be.
#[derive(Clone, Copy, Debug, PartialEq, Eq)]
pub enum AtOnce {
    /// It is done, and the run goes on behind it.
    Behind,
    /// It is done, and the run goes on at a place in the code.
    At(u32),
    /// Memory was refused.
    Refused,
    /// Nothing is done.
    Undone,
}

/// What came of an instruction that is done at once, where it can be, and that may give a whole number.
#[derive(Clone, Copy, Debug, PartialEq, Eq)]
pub enum Begun {
    /// It is done but for the number that it gives, which is not on top yet; the run goes on behind it.
    Number(i128),
    /// It is done whole, or nothing is.
    As(AtOnce),
}

/// Behind the instruction, where memory was given.
#[inline(always)]
pub fn behind(is_given: bool) -> AtOnce
    ensures { result ≡ behind is_given }
{
    if is_given {
        AtOnce::Behind
    } else {
        AtOnce::Refused
    }
}
