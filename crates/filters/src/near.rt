//! Two filters together.
ghost use Rattle.std.specs.Prelude.{◌≡◌, ◌<◌, true, length};
ghost use Rattle.filters.specs.Questions.{near, near_pattern, ahead, behind};
ghost use Rattle.filters.specs.Filters.{StandsFor, none};
ghost use Rattle.filters.specs.Pairing.{near_necessary};
ghost use Rattle.std.proofs.Common.{rules};

use crate::filter::Filter;
use crate::question::Question;
use crate::refusal::Refusal;

/// Passes a place if the first does and the second passes one near it on the diagonal: as near as both lie to the
/// start of one match.
#[derive(Clone, Copy)]
pub struct Near<A, B> {
    first: A,
    second: B,
}

impl<A: Filter, B: Filter> Near<A, B> {
    /// The two filters, both cleared.
    pub fn new(mut first: A, mut second: B) -> Self
        ensures first_cleared { StandsFor A.rule A.reaches (A.stands result.first) none }
        ensures second_cleared { StandsFor B.rule B.reaches (B.stands result.second) none }
        ensures cleared { StandsFor (near A.rule A.reaches B.rule B.reaches) A.reaches (near_pattern (A.stands result.first) (B.stands result.second)) none }
    {
        first.clear();
        second.clear();
        Near { first, second }
    }

    /// Whether the second passes a place near (i, j), which the first passes.
    fn passes_beside(&self, trace: &[u16], i: usize, j: usize) -> bool
        requires { (A.stands self.now.first).marks trace.now i j ≡ true }
        ensures { result ≡ (near_pattern (A.stands self.now.first) (B.stands self.now.second)).marks trace.now i j }
    {
        self.passes_ahead(trace, i, j) || self.passes_behind(trace, i, j)
    }

    /// Whether the second passes a place from (i, j) up to its own reach ahead.
    fn passes_ahead(&self, trace: &[u16], i: usize, j: usize) -> bool
        requires { (i < 1024) × (j < length trace.now) }
        ensures { result ≡ ahead ((B.stands self.now.second).marks trace.now) (B.stands self.now.second).span i j }
    {
        // Past the trace's end no place is passed, so none is asked for there.
        let most = self.second.reach().min(trace.len() - j - 1);
        (0..most + 1).any(|d| self.second.passes(trace, i + d, j + d))
    }

    /// Whether the second passes a place from (i, j) up to the first's reach behind.
    fn passes_behind(&self, trace: &[u16], i: usize, j: usize) -> bool
        ensures { result ≡ behind ((B.stands self.now.second).marks trace.now) (A.stands self.now.first).span i j }
    {
        let most = self.first.reach().min(i).min(j);
        (0..most + 1).any(|d| self.second.passes(trace, i - d, j - d))
    }
}

impl<A: Filter, B: Filter> Filter for Near<A, B> {
    ghost stands = { λ x. near_pattern (A.stands x.first) (B.stands x.second) };

    ghost rule = { near A.rule A.reaches B.rule B.reaches };

    ghost reaches = { A.reaches };

    ghost few = { Prim.search rules };

    ghost short = { Prim.search rules };

    ghost within = { Prim.search rules };

    ghost inside = { Prim.search rules };

    ghost below = { Prim.search rules };

    ghost unasked = { Prim.search rules };

    ghost necessary = { near_necessary A.rule A.reaches B.rule B.reaches
        A.Filter.necessary B.Filter.necessary };

    fn set(&mut self, question: Question<'_>) -> Result<(), Refusal> {
        self.first.set(question)?;
        self.second.set(question)
    }

    fn clear(&mut self) {
        self.first.clear();
        self.second.clear();
    }

    fn len(&self) -> usize {
        self.first.len()
    }

    fn reach(&self) -> usize {
        self.first.reach()
    }

    fn passes(&self, trace: &[u16], i: usize, j: usize) -> bool {
        self.first.passes(trace, i, j) && self.passes_beside(trace, i, j)
    }

    fn mark_row(&self, trace: &[u16], j: usize, marks: &mut [u8]) -> Result<usize, Refusal> {
        let found = self.first.mark_row(trace, j, marks)?;
        if found == 0 {
            return Ok(0);
        }
        let q = self.first.len();
        let mut n = 0;
        // As in `Filter::mark_row`, with a test of its own: shared, three lines would take a closure of two arguments. Only
        // where the first passes is anything written: most marks are 0, and a row goes over all of them.
        for (i, mark) in marks[..q].iter_mut().enumerate() {
            if *mark == 1 {
                let passed = self.passes_beside(trace, i, j);
                *mark = u8::from(passed);
                n += usize::from(passed);
            }
        }
        Ok(n)
    }
}
