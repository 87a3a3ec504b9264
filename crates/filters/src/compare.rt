//! The comparison of two windows.
ghost use Rattle.std.specs.Prelude.{◌≡◌, ℕ, ◌+◌, ◌<◌, ◌≤◌, length, take, drop, not, count_by, IfOk, IfErr};
ghost use Rattle.std.specs.List.{zip};
ghost use Rattle.filters.specs.Matching.{compared};

use crate::held::LONGEST_WINDOW;
use crate::refusal::Refusal;
use trace::sample::Sample;

/// In how many of m places, those from i in the query beside those from j in the trace, the codes do not agree by the
/// kind S.
pub fn count_mismatches<S: Sample>(
    query: &[u16],
    trace: &[u16],
    i: usize,
    j: usize,
    m: usize,
) -> Result<usize, Refusal>
    ensures { result ≡ compared S.kind.agree query.now trace.now i j m }
{
    if m == 0 || m > LONGEST_WINDOW {
        return Err(Refusal::NoWindow);
    }
    Ok(disagreements::<S>(window(query, i, m)?, window(trace, j, m)?))
}

/// The m codes from a place on.
fn window(codes: &[u16], at: usize, m: usize) -> Result<&[u16], Refusal>
    ensures inside { IfOk result (λ part. (at + m ≤ length codes.now) × (part.now ≡ take m (drop at codes.now))) }
    ensures outside { IfErr result (λ e. (length codes.now < at + m) × (e ≡ Refusal.NoWindow)) }
{
    codes
        .get(at..)
        .and_then(|rest| rest.get(..m))
        .ok_or(Refusal::NoWindow)
}

/// The places of two windows at which the codes do not agree.
fn disagreements<S: Sample>(a: &[u16], b: &[u16]) -> usize
    ensures { result ≡ count_by (λ p. not (S.kind.agree p.0 p.1)) (zip a.now b.now) }
{
    a.iter().zip(b).filter(|(x, y)| !S::agree(**x, **y)).count()
}
