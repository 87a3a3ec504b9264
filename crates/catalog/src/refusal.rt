//! Why a call of the collection is refused, and the numbers that refusals have.
ghost use Rattle.std.specs.Prelude.{◌≡◌};
ghost use Rattle.trace.specs.Told.{number_of};
ghost use Rattle.catalog.specs.Refusals.{told};
ghost use Rattle.catalog.specs.declared.refusal.Refusal.TheVariants.{File, Question};

use filters::refusal::Refusal as FilterRefusal;
use trace::refusal::Refusal as FileRefusal;

/// Why a call was refused.
#[derive(Clone, Copy, PartialEq, Debug)]
pub enum Refusal {
    /// The mark is 0 or above 65,535.
    BadMark,
    /// The store's length is not 1 to 65,535, or the list's is not 1 to 16,384.
    BadMemory,
    /// Store or list have another length than at the opening, or a buffer is too short.
    OtherMemory,
    /// A trace file has a fault.
    File(FileRefusal),
    /// As many traces stand as the catalogue has rows.
    TooManyTraces,
    /// The last accession number was given.
    NumbersSpent,
    /// The samples would exceed the store.
    StoreFull,
    /// The pairs would exceed the list.
    ListFull,
    /// No trace stands under the number.
    NoTrace,
    /// A loan of the trace is counted.
    OnLoan,
    /// The filter does not take the question.
    Question(FilterRefusal),
    /// As many loans of the trace are counted as can be.
    TooManyLoans,
    /// The slip bears another mark.
    OtherMark,
    /// No loan of the trace is counted.
    NoLoan,
    /// There is no match at the index.
    NoMatch,
}

impl Refusal {
    /// The number of the refusal, 1 to 24.
    pub fn number(self) -> u8
        ensures { result ≡ number_of (told self) }
    {
        match self {
            Refusal::BadMark => 1,
            Refusal::BadMemory => 2,
            Refusal::OtherMemory => 3,
            Refusal::File(refusal) => refusal.number(),
            Refusal::TooManyTraces => 9,
            Refusal::NumbersSpent => 10,
            Refusal::StoreFull => 11,
            Refusal::ListFull => 12,
            Refusal::NoTrace => 13,
            Refusal::OnLoan => 14,
            Refusal::Question(refusal) => refusal.number(),
            Refusal::TooManyLoans => 19,
            Refusal::OtherMark => 20,
            Refusal::NoLoan => 21,
            Refusal::NoMatch => 22,
        }
    }
}

impl From<FileRefusal> for Refusal {
    ghost from_gives = { λ e r. r ≡ File e };

    fn from(refusal: FileRefusal) -> Refusal {
        Refusal::File(refusal)
    }
}

impl From<FilterRefusal> for Refusal {
    ghost from_gives = { λ e r. r ≡ Question e };

    fn from(refusal: FilterRefusal) -> Refusal {
        Refusal::Question(refusal)
    }
}
