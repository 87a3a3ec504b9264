//! Why a call is refused, and the numbers that refusals have.
ghost use Rattle.std.specs.Prelude.{◌≡◌};
ghost use Rattle.filters.specs.Refusals.{refusal_number};

/// Why a call was refused.
#[derive(Clone, Copy, PartialEq, Debug)]
pub enum Refusal {
    /// The query has more than 1,024 codes.
    QueryTooLong = 15,
    /// The length m is 0, above 512, or above the query's length.
    BadLength = 16,
    /// The number k of mismatches is above 15, or not below m.
    BadMismatches = 17,
    /// There are fewer marks than the query has codes.
    MarksTooShort = 18,
    /// Of a comparison: m is 0 or above 512, or a window goes past an end.
    NoWindow = 23,
    /// Of tuple numbers: l is not 1 to 512, g is not 1 to 16, there is no start, or the output is too short.
    NoTuples = 24,
}

impl Refusal {
    /// The number of the refusal.
    // A method, and no `From`: a bare number does not say what it numbers.
    pub fn number(self) -> u8
        ensures { result ≡ refusal_number self }
    {
        self as u8
    }
}
