//! The text that is printed of a search.
ghost use Rattle.std.specs.Prelude.{◌≡◌, Some, IfOk, string_bytes};
ghost use Rattle.console.specs.Texts.{summary_text, table_text, refusal_line};

use search::matches::Match;
use std::alloc::{AllocError, Global};
use std::fmt;

/// The line above the matches.
const HEADING: &str = "accession trace query mismatches";

/// The sums over the traces that were searched, and the filter's reach.
#[derive(Clone, Copy, PartialEq, Debug)]
pub struct Summary {
    pub traces: usize,
    pub samples: usize,
    pub pairs: usize,
    pub places: usize,
    pub reach: usize,
}

impl fmt::Display for Summary {
    ghost output = { λ s. Some (summary_text s) };

    fn fmt<W: fmt::Write>(&self, f: &mut fmt::Formatter<W>) -> fmt::Result {
        let Summary {
            traces,
            samples,
            pairs,
            places,
            reach,
        } = *self;
        write!(
            f,
            "traces {traces} samples {samples} pairs {pairs} places {places} reach {reach}"
        )
    }
}

/// All matches, a line for each below the heading, and the summary.
#[derive(Clone, Copy)]
pub struct Table<'a> {
    pub matches: &'a [Match],
    pub summary: Summary,
}

impl fmt::Display for Table<'_> {
    ghost output = { λ t. Some (table_text t) };

    fn fmt<W: fmt::Write>(&self, f: &mut fmt::Formatter<W>) -> fmt::Result {
        writeln!(f, "{HEADING}")?;
        for pair in self.matches {
            writeln!(f, "{pair}")?;
        }
        writeln!(f, "{}", self.summary)
    }
}

/// The line of a refusal with this number.
// A function, and no `Display`: a type round one number would say no more.
pub fn refusal_line(heap: Global, number: u8) -> Result<String, AllocError>
    ensures is { IfOk result (λ s. string_bytes s ≡ refusal_line number) }
{
    format!(in heap; "refused {number}\n")
}
