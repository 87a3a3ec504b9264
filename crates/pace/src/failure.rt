//! Why measuring ended early.
use filters::refusal::Refusal;
use std::alloc::AllocError;
use std::io;

/// Why measuring ended early.
// The crate trials has the like with another first cause: what both need of a crate below them would be two conversions.
#[derive(Debug, Drop)]
pub enum Failure {
    /// A filter refused its question or its marks.
    Refused(Refusal),
    /// The clock, the output or the memory failed.
    System(io::Error),
}

impl From<Refusal> for Failure {
    fn from(refusal: Refusal) -> Failure {
        Failure::Refused(refusal)
    }
}

impl From<io::Error> for Failure {
    fn from(error: io::Error) -> Failure {
        Failure::System(error)
    }
}

impl From<AllocError> for Failure {
    fn from(error: AllocError) -> Failure {
        Failure::System(error.into())
    }
}
