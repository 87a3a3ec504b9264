//! What a collection tells of itself.
use search::matches::Match;

/// The rows of the catalogue added up, and the filter's reach.
#[derive(Clone, Copy, PartialEq, Debug)]
pub struct Report {
    pub traces: usize,
    pub samples: usize,
    pub pairs: usize,
    pub places: usize,
    pub reach: usize,
}

/// The matches in the list, and the report that goes with them.
#[derive(Clone, Copy)]
pub struct Listing<'a> {
    pub matches: &'a [Match],
    pub report: Report,
}

/// A trace's own part of the store.
#[derive(Clone, Copy)]
pub struct Stored<'a, S> {
    /// Where in the store it begins.
    pub place: usize,
    pub samples: &'a [S],
}
