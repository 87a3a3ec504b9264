//! Why there is no answer.
ghost use Rattle.std.specs.Prelude.{◌≡◌};
ghost use Rattle.console.specs.declared.failure.Failure.TheVariants.{NoMemory};

use std::alloc::AllocError;

/// Why there is no answer.
#[derive(Drop)]
pub enum Failure<R> {
    /// The input was refused.
    Refused(R),
    /// There was too little memory.
    NoMemory(AllocError),
}

impl<R> From<AllocError> for Failure<R> {
    ghost from_gives = { λ e r. r ≡ NoMemory e };

    fn from(error: AllocError) -> Failure<R> {
        Failure::NoMemory(error)
    }
}
