//! The queries and traces that filters are tried on.
ghost use Rattle.std.specs.Prelude.{◌≡◌, length, replicate, IfOk, ◌<◌, ◌≢◌};
ghost use Rattle.pace.specs.Inputs.{Pulses, Sized};

use crate::question::{K, M};
use draws::Draws;
use filters::held::MOST_CODES;
use std::alloc::{AllocError, Global};
use trace::file::MOST_SAMPLES;
use trace::pulse::Pulse;
use trace::sample::Sample;

/// Where the draws start. Any number will do, as long as it stays the same.
const SEED: u64 = 20_260_101;

/// The draws from the start on.
pub fn start() -> Draws
    ensures { result.state ≡ 20260101 }
{
    Draws::new(SEED)
}

/// The codes of the query, the most that a filter takes.
const QUERY: usize = MOST_CODES;

/// The codes of the trace, the most that a trace has.
const TRACE: usize = MOST_SAMPLES;

/// The rows that are marked of the trace drawn by chance: all.
const ALL_ROWS: u16 = TRACE as u16;

/// The rows that are marked of the dense trace. They are alike, and each has about as many places passed as the query
/// has codes, so a few show what a row costs, and more would only take longer.
const DENSE_ROWS: u16 = 256;

/// The one code of the dense input.
const DENSE_CODE: u16 = 7;

/// Where the codes begin in the query that are copied into the trace, M of them for one match.
const QUERY_START: usize = 300;

/// Where they begin in the trace, off the query's diagonal.
const TRACE_START: usize = 2_000;

/// Which of the copied codes are changed: as many as a match may have, and so that the filters pass few places for it.
/// Of the four parts between them three have 16 codes and one has fewer, and of the four series of every fourth code
/// only one is left whole.
const CHANGED: [usize; K] = [16, 33, 50];

/// A query and a trace, of which the first `rows` rows are marked.
#[derive(Drop)]
pub struct Input {
    pub name: &'static str,
    pub query: Vec<u16>,
    pub trace: Vec<u16>,
    pub rows: u16,
}

impl Input {
    /// Codes drawn by chance, with one match.
    pub fn random(heap: Global) -> Result<Input, AllocError>
        ensures { IfOk result (Sized 4096) }
    {
        let mut draws = start();
        let query = draws.codes(heap, QUERY, Pulse::CODES)?;
        let mut trace = draws.codes(heap, TRACE, Pulse::CODES)?;
        plant(query.as_slice(), trace.as_mut_slice());
        Ok(Input {
            name: "random",
            query,
            trace,
            rows: ALL_ROWS,
        })
    }

    /// One code throughout, so that filters pass nearly every place.
    pub fn dense(heap: Global) -> Result<Input, AllocError>
        ensures size { IfOk result (Sized 256) }
        ensures codes { IfOk result (λ input. (input.query.items ≡ replicate 1024 7) × (input.trace.items ≡ replicate 4096 7)) }
    {
        Ok(Input {
            name: "dense",
            query: vec![in heap; DENSE_CODE; QUERY]?,
            trace: vec![in heap; DENSE_CODE; TRACE]?,
            rows: DENSE_ROWS,
        })
    }
}

/// Copies a stretch of the query into the trace, and changes some of its codes there.
fn plant(query: &[u16], trace: &mut [u16])
    requires { (length query.now ≡ 1024) × (length trace.old ≡ 4096) }
    ensures { Pulses query.now → Pulses trace.old → Pulses trace.new }
{
    let stretch = &mut trace[TRACE_START..TRACE_START + M];
    stretch.copy_from_slice(&query[QUERY_START..QUERY_START + M]);
    for x in CHANGED {
        stretch[x] = other(stretch[x]);
    }
}

/// A code that is not this one.
fn other(code: u16) -> u16
    ensures other { result ≢ code }
    ensures small { result < 20 }
{
    if code == 0 { 1 } else { 0 }
}
