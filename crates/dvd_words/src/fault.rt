//! Why arguments give no settings. Memory is apart from usage, since the same arguments may be read later.

ghost use Rattle.std.specs.Prelude.{◌≡◌};
ghost use Rattle.dvd_words.specs.declared.fault.WordsFault.TheVariants.{NoMemory};

use std::alloc::AllocError;
use thiserror::Error;

/// The arguments are invalid, or they can't be read now.
#[derive(Clone, Copy, Debug, PartialEq, Eq, Error)]
pub enum WordsFault {
    /// They have the form of no command.
    #[error("the words are no command of the program")]
    Usage,
    /// There was no memory to read them with.
    #[error("there is no memory to read the words with")]
    NoMemory,
}

// For `?` where an allocation fails: an `AllocError` says nothing more than that. `from_gives` says to the prover what
// comes of it.
impl From<AllocError> for WordsFault {
    ghost from_gives = { λ _ fault. fault ≡ NoMemory };

    fn from(_error: AllocError) -> WordsFault {
        WordsFault::NoMemory
    }
}
