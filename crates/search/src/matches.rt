//! What a search finds.
ghost use Rattle.std.specs.Prelude.{Some};
ghost use Rattle.search.specs.Texts.{match_text};

use std::fmt;

/// A match: two windows, one of a trace and one of the query, that agree in all but a few places.
#[derive(Clone, Copy, PartialEq, Debug)]
pub struct Match {
    /// The trace's accession number.
    pub accession: u32,
    /// Where the window begins in the trace.
    pub trace: u16,
    /// Where it begins in the query.
    pub query: u16,
    /// At how many of its places the codes do not agree.
    pub mismatches: u16,
}

impl Match {
    /// No match yet, for memory that matches are then written into.
    pub const NONE: Match = Match {
        accession: 0,
        trace: 0,
        query: 0,
        mismatches: 0,
    };
}

impl fmt::Display for Match {
    ghost output = { λ x. Some (match_text x) };

    fn fmt<W: fmt::Write>(&self, f: &mut fmt::Formatter<W>) -> fmt::Result {
        let Match {
            accession,
            trace,
            query,
            mismatches,
        } = *self;
        write!(f, "{accession} {trace} {query} {mismatches}")
    }
}

/// How many pairs of places match, and how many places the filter passed.
#[derive(Clone, Copy, PartialEq, Debug)]
pub struct Found {
    pub pairs: usize,
    pub places: usize,
}
