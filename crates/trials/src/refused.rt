//! Questions that are to be refused.
ghost use Rattle.std.specs.Prelude.{◌≡◌, ◌<◌, ◌≤◌, Err};
ghost use Rattle.filters.specs.Filters.{verdict};

use draws::Draws;
use filters::refusal::Refusal;

/// How far a number lies past the first that is refused, at most.
const PAST: usize = 3;

/// An m and a k that no filter takes, and what every filter answers to them.
#[derive(Clone, Copy)]
pub struct RefusedQuestion {
    pub m: usize,
    pub k: usize,
    pub refusal: Refusal,
}

impl RefusedQuestion {
    /// A question with no window, with one longer than the query's q codes, or with as many mismatches as the window has
    /// places, or more.
    pub fn draw(draws: &mut Draws, q: usize, m: usize) -> RefusedQuestion
        ensures { 0 < m → m ≤ q → q ≤ 512 → verdict q result.m result.k ≡ Err result.refusal }
    {
        let past = draws.up_to(PAST);
        match draws.up_to(2) {
            0 => RefusedQuestion {
                m: 0,
                k: past,
                refusal: Refusal::BadLength,
            },
            1 => RefusedQuestion {
                m: q.saturating_add(1).saturating_add(past),
                k: 0,
                refusal: Refusal::BadLength,
            },
            _ => RefusedQuestion {
                m,
                k: m.saturating_add(past),
                refusal: Refusal::BadMismatches,
            },
        }
    }
}
