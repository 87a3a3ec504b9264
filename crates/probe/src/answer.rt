//! What a search finds.
ghost use Rattle.std.specs.Prelude.{◌≤◌, length, Ok};
ghost use Rattle.filters.specs.Asked.{asked};
ghost use Rattle.filters.specs.Filters.{StandsFor};
ghost use Rattle.probe.specs.Answers.{Searched};

use crate::refusal::{Failure, Refusal};
use filters::filter::Filter;
use filters::held::MOST_CODES;
use filters::question::Question;
use search::matches::{Found, Match};
use search::scan::scan;
use std::alloc::{AllocError, Global};
use trace::pulse::Pulse;

/// The accession number of the one trace.
const ACCESSION: u32 = 1;

/// What was found in a trace.
#[derive(Drop)]
pub struct Answer {
    /// How many samples the trace has.
    pub samples: usize,
    pub found: Found,
    /// The filter's reach.
    pub reach: usize,
    /// All matches, by rising place of the trace and then of the query.
    pub matches: Vec<Match>,
}

/// Searches pulse codes through a filter that was set to the question: once to count the matches, and once more to
/// list them, in a list of just that length.
pub fn find<F: Filter>(
    heap: Global,
    filter: &F,
    question: Question<'_>,
    trace: &[u16],
) -> Result<Answer, Failure>
    ensures { StandsFor F.rule F.reaches (F.stands filter.now) (asked question.entry) → length trace.now ≤ 4096 → Searched F.rule F.reaches result (Ok (record { question = asked question.entry; trace = trace.now })) }
{
    let mut marks = [0u8; MOST_CODES];
    let found = scan::<Pulse, F>(filter, question, trace, ACCESSION, &mut marks, &mut []).map_err(
        Refusal::Scan,
    )?;
    let mut matches = vec![in heap; Match::NONE; found.pairs]?;
    scan::<Pulse, F>(
        filter,
        question,
        trace,
        ACCESSION,
        &mut marks,
        matches.as_mut_slice(),
    )
    .map_err(Refusal::Scan)?;
    Ok(Answer {
        samples: trace.len(),
        found,
        reach: filter.reach(),
        matches,
    })
}
