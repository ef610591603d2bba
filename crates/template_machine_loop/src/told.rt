//! What calls tell of their end that hear no user's own.
ghost use Rattle.std.specs.Prelude.{◌≡◌};
ghost use Rattle.template_machine_going.specs.Told.{told_by, told_writing};

use template_machine_going::Stop;
use template_values_errors::Error;

// What a call came to that writes into no sink.
#[inline(always)]
pub(crate) fn told_by<X>(done: Result<X, Error>) -> Result<X, Stop>
    ensures { result ≡ told_by done }
{
    match done {
        Ok(done) => Ok(done),
        Err(error) => Err(error.into()),
    }
}

// What a call came to that may write into one.
#[inline(always)]
pub(crate) fn told_writing<X>(done: Result<X, Error>) -> Result<X, Stop>
    ensures { result ≡ told_writing done }
{
    match done {
        Ok(done) => Ok(done),
        Err(error) => Err(Stop::of_writing(error)),
    }
}
