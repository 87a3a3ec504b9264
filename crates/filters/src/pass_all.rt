//! The filter that passes every place.
ghost use Rattle.filters.specs.Asking.{question_of};
ghost use Rattle.filters.specs.Questions.{pass_all_rule, pass_all_reach};
ghost use Rattle.filters.specs.Filters.{Fair, StandsFor, pattern_of, none};
ghost use Rattle.std.proofs.Common.{rules};

use crate::filter::Filter;
use crate::held::Held;
use crate::question::Question;
use crate::refusal::Refusal;

/// The filter that passes every place.
#[derive(Clone, Copy)]
pub struct PassAll {
    held: Held,
    ghost fair: { Fair (question_of held) },
}

impl PassAll {
    /// The filter with no question set.
    pub fn new() -> Self
        ensures { StandsFor pass_all_rule pass_all_reach (pattern_of pass_all_rule pass_all_reach (question_of result.held)) none }
    {
        PassAll { held: Held::new() }
    }
}

impl Filter for PassAll {
    ghost stands = { λ x. pattern_of pass_all_rule pass_all_reach (question_of x.held) };

    ghost rule = { pass_all_rule };

    ghost reaches = { pass_all_reach };

    ghost few = { Prim.search rules };

    ghost short = { Prim.search rules };

    ghost within = { Prim.search rules };

    ghost inside = { Prim.search rules };

    ghost below = { Prim.search rules };

    ghost unasked = { Prim.search rules };

    ghost necessary = { Prim.search rules };

    fn set(&mut self, question: Question<'_>) -> Result<(), Refusal> {
        self.held.set(question)
    }

    fn clear(&mut self) {
        self.held.clear();
    }

    fn len(&self) -> usize {
        self.held.len()
    }

    fn reach(&self) -> usize {
        0
    }

    fn passes(&self, trace: &[u16], i: usize, j: usize) -> bool {
        i < self.held.len() && j < trace.len()
    }
}
