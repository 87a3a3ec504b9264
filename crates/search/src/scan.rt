//! One scan of a trace, from its last place down.
ghost use Rattle.std.specs.Prelude.{◌≡◌, ℕ, suc, ◌+◌, ◌-◌, ◌*◌, ◌<◌, ◌≤◌, Bool, true, false, ◌&&◌, length, IfOk, Ok, Err, nat_le, nat_lt, slice_index};
ghost use Rattle.filters.specs.Filters.{StandsFor};
ghost use Rattle.filters.specs.Asked.{asked};
ghost use Rattle.search.specs.Scans.{nearer, quieter, judged, ScanAnswer, WholeAnswer};
ghost use Rattle.search.specs.Theorems.{KeptLonger};

use crate::compare::Comparison;
use crate::matches::{Found, Match};
use crate::refusal::Refusal;
use filters::filter::Filter;
use filters::held::MOST_CODES;
use filters::question::Question;
use trace::file::MOST_SAMPLES;
use trace::sample::Sample;

/// The places of the longest query, and one behind the last.
const PLACES_AND_END: usize = MOST_CODES + 1;

/// Whether a scan can be made: of n codes, for a query of q codes by a filter of so many, with so many marks.
fn judge(n: usize, q: usize, size: usize, marks: usize) -> Result<(), Refusal>
    ensures { result ≡ judged n q size marks }
{
    if n > MOST_SAMPLES {
        return Err(Refusal::TraceTooLong);
    }
    if q != size {
        return Err(Refusal::OtherQuery);
    }
    if marks < size {
        return Err(Refusal::MarksTooShort);
    }
    Ok(())
}

/// How far ahead the next passed place is, by the mark of a place and how far ahead it is from the next.
pub(crate) fn nearer(cap: u16, mark: u8, next: u16) -> u16
    ensures { result ≡ nearer cap mark next }
{
    // Not by `min` and `saturating_add`, which make a row of `approach` take several times as long.
    if mark != 0 {
        0
    } else if next < cap {
        next + 1
    } else {
        cap
    }
}

/// One row up: how far ahead on its diagonal the next passed place is, at most `cap`.
pub(crate) fn approach(ahead: &mut [u16], marks: &[u8], cap: u16)
    requires { length marks.now < length ahead.old }
    ensures near { (i : ℕ) → i < length marks.now → slice_index ahead.new i ≡ nearer cap (slice_index marks.now i) (slice_index ahead.old (suc i)) }
    ensures rest { (i : ℕ) → length marks.now ≤ i → slice_index ahead.new i ≡ slice_index ahead.old i }
{
    // `ahead` by index: each number comes from the one behind it.
    for (i, mark) in marks.iter().enumerate() {
        ahead[i] = nearer(cap, *mark, ahead[i + 1]);
    }
}

/// How many rows in a row had nothing passed, counted up to cap + 1.
pub(crate) fn still(quiet: u16, row: usize, cap: u16) -> u16
    requires { cap < 1024 }
    ensures { result ≡ quieter cap row quiet }
{
    if row > 0 {
        0
    } else if quiet <= cap {
        quiet + 1
    } else {
        quiet
    }
}

/// Counts the matches of a question in one trace and the places that the filter passes there, and writes the matches
/// into `out` from its back, as far as there is room: an `out` of just their number then holds all of them, by rising
/// trace place and query place, and an empty one only counts.
///
/// The rows of the trace are gone through from the last up. `ahead[i]` is how far from (i, j) on its diagonal the next
/// passed place is, capped at reach + 1; by the filter's law a window that matches has it at most at reach. Where
/// nothing was passed for more than reach + 1 rows, nothing is compared.
pub fn scan<S: Sample, F: Filter>(
    filter: &F,
    question: Question<'_>,
    trace: &[u16],
    accession: u32,
    marks: &mut [u8],
    out: &mut [Match],
) -> Result<Found, Refusal>
    ensures seen { ScanAnswer (F.stands filter.now) S.kind.agree (asked question.entry) trace.now accession marks.old marks.new out.old out.new result }
    ensures whole { StandsFor F.rule F.reaches (F.stands filter.now) (asked question.entry) → WholeAnswer F.rule F.reaches S.kind.agree (asked question.entry) trace.now accession out.old out.new result }
    ensures few { IfOk result (λ f. (f.pairs ≤ 4096 * 1024) × (f.places ≤ 4096 * 1024)) }
    ensures kept { KeptLonger S.kind.agree (asked question.entry) trace.now }
{
    let q = filter.len();
    judge(trace.len(), question.codes.len(), q, marks.len())?;
    let reach = filter.reach() as u16;
    let cap = reach + 1;
    let comparison = Comparison {
        question,
        trace,
        accession,
        reach,
    };
    let mut ahead = [cap; PLACES_AND_END];
    let mut quiet = 0;
    let mut found = Found {
        pairs: 0,
        places: 0,
    };
    // By place: j is where windows begin, and is written into the matches.
    for j in (0..trace.len()).rev() {
        let Ok(passed) = filter.mark_row(trace, j, marks) else {
            unreachable()
        };
        found.places += passed;
        quiet = still(quiet, passed, cap);
        if quiet <= cap {
            approach(&mut ahead, &marks[..q], cap);
            found.pairs = comparison.list_row::<S>(j, &ahead, found.pairs, out);
        }
    }
    Ok(found)
}
