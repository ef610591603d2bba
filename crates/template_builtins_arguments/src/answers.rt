//! How builtins answer.
ghost use Rattle.std.specs.Prelude.{◌≡◌, [], ◌∷◌, Err};
ghost use Rattle.template_builtins_arguments.specs.Answers.{Made, Tells, answered};
ghost use Rattle.template_callables.specs.Answers.{Answers};

use template_callables::Answer;
use template_values_core::Value;
use template_values_errors::{Error, ErrorKind};

/// The refusal of a wrong kind of value, or of a number or a word that is not allowed.
pub fn refusal<T>() -> Result<T, Error>
    ensures { result ≡ Err (ErrorKind.InvalidOperation ∷ []) }
{
    Err(Error::new(ErrorKind::InvalidOperation))
}

/// The answer that a callable gives with what its builtin came to.
pub fn stated(made: Result<Value, Error>) -> Answer
    ensures { (answer : Made) → Tells made answer → Answers (answered answer) result }
{
    Answer::from(made)
}
