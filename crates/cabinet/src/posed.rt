//! A question with a filter that stands for it.
ghost use Rattle.std.specs.Prelude.{◌≡◌, length, Ok, Err, ⊤};
ghost use Rattle.filters.specs.Asking.{question_of};
ghost use Rattle.filters.specs.Asked.{asked};
ghost use Rattle.filters.specs.Filters.{StandsFor, verdict};

use filters::filter::Filter;
use filters::held::Held;
use filters::question::Question;
use filters::refusal::Refusal;
use std::alloc::AllocError;

/// A question, and a filter that stands for it.
// A collection keeps the two apart: a type with this field asks all who name it that F be a filter.
pub(crate) struct Posed<F: Filter> {
    pub(crate) filter: F,
    pub(crate) question: Held,
    ghost set: { StandsFor F.rule F.reaches (F.stands filter) (question_of question) },
}

// By hand: neither is derived for a generic struct with a ghost field.
impl<F: Filter> Clone for Posed<F> {
    ghost is_clone = { λ x y. y ≡ x };

    ghost is_infallible = { λ _. ⊤ };

    fn clone(&self) -> Result<Self, AllocError> {
        Ok(*self)
    }
}

impl<F: Filter> Copy for Posed<F> {}

impl<F: Filter> Posed<F> {
    /// A question, and a copy of the filter set for it. The question is judged first, so that a refused one copies nothing.
    pub(crate) fn new(filter: &F, question: Question<'_>) -> Result<Self, Refusal>
        ensures { let a = asked question.entry in elim result [ Ok posed ↦ (Ok tt ≡ verdict (length a.codes) a.m a.k) × (question_of posed.question ≡ a) | Err e ↦ Err e ≡ verdict (length a.codes) a.m a.k ] }
    {
        let held = Held::of(question)?;
        let mut filter = *filter;
        filter.set(question)?;
        Ok(Posed {
            filter,
            question: held,
        })
    }
}
