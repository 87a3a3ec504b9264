//! The search that only compares: every window of the query with every window of the trace. It shares nothing with the
//! library but the type of a match.
ghost use Rattle.std.specs.Prelude.{◌≡◌, not, ◌==◌, All, IfOk, count_by};
ghost use Rattle.std.specs.List.{zip};
ghost use Rattle.trials.specs.Cases.{Sound};

use crate::cases::Case;
use crate::failure::Failure;
use search::matches::Match;
use std::alloc::Global;

/// All matches of a case, by rising trace place and query place.
pub fn all_matches(heap: Global, case: &Case) -> Result<Vec<Match>, Failure>
    ensures { IfOk result (λ matches. All (Sound case.now) matches.items) }
{
    let mut matches = Vec::new(heap);
    if case.m == 0 {
        // No window is empty.
        return Ok(matches);
    }
    for (place, window) in case.trace.windows(case.m).enumerate() {
        for (start, codes) in case.query.windows(case.m).enumerate() {
            let mismatches = differing(codes, window);
            if mismatches <= case.k {
                matches.push(Match {
                    accession: case.number,
                    trace: u16::try_from(place)?,
                    query: u16::try_from(start)?,
                    mismatches: u16::try_from(mismatches)?,
                })?;
            }
        }
    }
    Ok(matches)
}

/// At how many places two windows differ.
fn differing(a: &[u16], b: &[u16]) -> usize
    ensures { result ≡ count_by (λ pair. not (pair.0 == pair.1)) (zip a.now b.now) }
{
    a.iter().zip(b.iter()).filter(|(x, y)| **x != **y).count()
}
