//! Why a scan is refused.
ghost use Rattle.std.specs.Prelude.{◌≡◌};
ghost use Rattle.search.specs.Refusals.{refusal_number};

/// Why a scan was refused.
#[derive(Clone, Copy, PartialEq, Debug)]
pub enum Refusal {
    /// The trace has more than 4,096 codes.
    TraceTooLong,
    /// The query is not as long as the one that the filter was set for.
    OtherQuery,
    /// There are fewer marks than the query has codes.
    MarksTooShort,
}

impl Refusal {
    /// The number of the refusal.
    pub fn number(self) -> u8
        ensures { result ≡ refusal_number self }
    {
        match self {
            Refusal::TraceTooLong => 3,
            Refusal::OtherQuery => 3,
            Refusal::MarksTooShort => 18,
        }
    }
}
