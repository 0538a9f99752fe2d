//! Why the words of a command line are not done.

ghost use Rattle.std.specs.Prelude.{◌≡◌, ◌≢◌};
ghost use Rattle.clap.specs.Values.{kind_of};
ghost use Rattle.clap.specs.declared.error.kind.ErrorKind.TheVariants.{OutOfMemory};
ghost use Rattle.command_words.specs.declared.failure.Failure.TheVariants as failure;

use clap::error::ErrorKind;
use std::alloc::AllocError;

/// Refusals with a value that says that memory ran out.
pub trait WantOfMemory: Drop {
    /// The refusal if memory ran out.
    ghost memory: { Self };

    fn want_of_memory() -> Self
        ensures { result ≡ memory };
}

/// Why the words are not done.
#[derive(Drop)]
pub enum Failure<R: Drop> {
    Refused(R),
    /// The words are no command, or ask for help.
    Usage(clap::Error),
}

impl<R: WantOfMemory> From<R> for Failure<R> {
    ghost from_gives = { λ r f. f ≡ failure.Refused r };

    fn from(refusal: R) -> Self {
        Failure::Refused(refusal)
    }
}

impl<R: WantOfMemory> From<AllocError> for Failure<R> {
    ghost from_gives = { λ _ f. f ≡ failure.Refused R.memory };

    fn from(_: AllocError) -> Self {
        Failure::Refused(R::want_of_memory())
    }
}

impl<R: WantOfMemory> From<clap::Error> for Failure<R> {
    ghost from_gives = { λ error f. (kind_of error ≡ OutOfMemory → f ≡ failure.Refused R.memory)
        × (kind_of error ≢ OutOfMemory → f ≡ failure.Usage error) };

    fn from(error: clap::Error) -> Self {
        match error.kind() {
            ErrorKind::OutOfMemory => Failure::Refused(R::want_of_memory()),
            _ => Failure::Usage(error),
        }
    }
}
