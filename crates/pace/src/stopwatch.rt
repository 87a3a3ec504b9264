//! How long filters take.
use crate::failure::Failure;
use crate::places::count_places;
use crate::question::{K, M};
use filters::filter::Filter;
use filters::question::Question;
use filters::refusal::Refusal;
use std::time::{Duration, Instant};

/// How often one thing is timed. The shortest time counts, since what else the machine does can only add to it.
const TRIES: u8 = 8;

/// How often a question is set in one try: one set takes microseconds, of which reading the clock would be a part.
const SETS: u32 = 256;

/// The nanoseconds of each of so many turns that took this long together.
fn each(all: Duration, turns: u32) -> u128 {
    all.as_nanos() / u128::from(turns.max(1))
}

/// Sets the question again and again.
fn set_often<F: Filter>(filter: &mut F, query: &[u16]) -> Result<(), Refusal> {
    let question = Question {
        codes: query,
        m: M,
        k: K,
    };
    for _ in 0..SETS {
        filter.set(question)?;
    }
    Ok(())
}

/// Sets the question of this query, and answers the nanoseconds that one set takes.
pub fn time_set<F: Filter>(
    rt: &HostRuntime,
    filter: &mut F,
    query: &[u16],
) -> Result<u128, Failure> {
    let mut best = Duration::MAX;
    for _ in 0..TRIES {
        let start = Instant::now(rt)?;
        set_often(filter, query)?;
        best = best.min(start.elapsed(rt)?);
    }
    Ok(each(best, SETS))
}

/// Marks the first rows of a trace, and answers the places passed and the nanoseconds that one row takes.
pub fn time_rows<F: Filter>(
    rt: &HostRuntime,
    filter: &F,
    trace: &[u16],
    rows: u16,
    marks: &mut [u8],
) -> Result<(usize, u128), Failure> {
    let mut best = Duration::MAX;
    let mut places = 0;
    for _ in 0..TRIES {
        let start = Instant::now(rt)?;
        places = count_places(filter, trace, rows, marks)?;
        best = best.min(start.elapsed(rt)?);
    }
    Ok((places, each(best, u32::from(rows))))
}
