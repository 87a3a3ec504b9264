//! Why trying ended early.
use std::alloc::{AllocError, AllocFailed};
use std::io;
use std::num::TryFromIntError;

/// Why trying ended early.
// The crate pace has the like with another first cause: what both need of a crate below them would be two conversions.
#[derive(Debug, Drop)]
pub enum Failure {
    /// A place of a case does not fit a match.
    Wide(TryFromIntError),
    /// The output or the memory failed.
    System(io::Error),
}

impl From<TryFromIntError> for Failure {
    fn from(error: TryFromIntError) -> Failure {
        Failure::Wide(error)
    }
}

impl From<io::Error> for Failure {
    fn from(error: io::Error) -> Failure {
        Failure::System(error)
    }
}

impl From<AllocError> for Failure {
    fn from(error: AllocError) -> Failure {
        Failure::System(error.into())
    }
}

impl<T: Drop> From<AllocFailed<T>> for Failure {
    fn from(_refused: AllocFailed<T>) -> Failure {
        Failure::System(AllocError.into())
    }
}
