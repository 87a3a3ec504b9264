//! How many places a filter passes, asked one by one.
use crate::cases::Case;
use filters::filter::Filter;

/// How far past the ends is asked too, where no place is to be passed.
const PAST_ENDS: usize = 2;

/// How many places `passes` says are passed.
pub fn count_passed<F: Filter>(filter: &F, case: &Case) -> usize {
    let rows = case.trace.len().saturating_add(PAST_ENDS);
    (0..rows).fold(0, |count: usize, j| {
        count.saturating_add(count_row(filter, case, j))
    })
}

fn count_row<F: Filter>(filter: &F, case: &Case, j: usize) -> usize {
    let trace = case.trace.as_slice();
    let places = case.query.len().saturating_add(PAST_ENDS);
    (0..places).filter(|i| filter.passes(trace, *i, j)).count()
}
