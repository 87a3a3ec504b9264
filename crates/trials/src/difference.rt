//! How an answer differs from what is expected.
use std::alloc::AllocError;
use std::fmt;

/// How an answer differs from what is expected.
#[derive(Clone, Copy)]
pub enum Difference {
    /// A question that is to be taken is refused.
    Set,
    /// A scan is refused.
    Scan,
    /// There are more or fewer matches.
    Count,
    /// A match differs from the one in its place.
    List,
    /// There are more or fewer places than `passes` says.
    Places,
    /// There are more matches than a filter with its reach can find by its places.
    Bound,
    /// A question that is to be refused is taken, or refused for another reason.
    Refusal,
    /// A refused question has changed the filter.
    Changed,
}

impl fmt::Display for Difference {
    fn fmt<W: fmt::Write>(&self, f: &mut fmt::Formatter<W>) -> fmt::Result {
        f.write_str(match self {
            Difference::Set => "the question is refused",
            Difference::Scan => "the scan is refused",
            Difference::Count => "the count of matches differs",
            Difference::List => "the list of matches differs",
            Difference::Places => "the count of places differs",
            Difference::Bound => "there are too few places for the matches",
            Difference::Refusal => "a bad question is not refused as it should be",
            Difference::Changed => "a refused question has changed the filter",
        })
    }
}

/// Why a comparison ended early.
#[derive(Drop)]
pub enum Fault {
    /// What is compared differs.
    Differs(Difference),
    /// There was no memory to compare it.
    Memory(AllocError),
}

impl From<Difference> for Fault {
    fn from(difference: Difference) -> Fault {
        Fault::Differs(difference)
    }
}

impl From<AllocError> for Fault {
    fn from(error: AllocError) -> Fault {
        Fault::Memory(error)
    }
}
