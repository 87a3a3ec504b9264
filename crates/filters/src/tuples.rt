//! The filters by tuples of codes that a match is sure to share.
ghost use Rattle.std.specs.Prelude.{◌≡◌, ◌<◌, Bool, length, ⊤};
ghost use Rattle.std.specs.Option.{ForSome, ForNone};
ghost use Rattle.filters.specs.Asking.{question_of};
ghost use Rattle.filters.specs.Questions.{share};
ghost use Rattle.filters.specs.Chains.{Heads, Links};
ghost use Rattle.filters.specs.Rules.{gap, tuple_rule, tuple_reach, numbers, tuples};
ghost use Rattle.filters.specs.Filters.{Fair, StandsFor, pattern_of, none};
ghost use Rattle.filters.specs.Necessity.{tuples_necessary};
ghost use Rattle.filters.specs.Sizing.{reach_short, reach_below, reach_unasked};
ghost use Rattle.std.proofs.Common.{rules};

use crate::filter::Filter;
use crate::held::Held;
use crate::index::Index;
use crate::question::Question;
use crate::refusal::Refusal;
use crate::row::{alike, mark_row};
use crate::shape::Shape;
use std::alloc::AllocError;
use std::marker::PhantomData;

/// A way to space the codes of a tuple: k + 1 apart, if it is wide, and else side by side.
pub trait Spacing: Copy {
    ghost wide: { Bool };

    /// How far apart the codes of a tuple lie.
    fn gap(held: &Held) -> usize
        ensures { result ≡ gap wide held.now.k };

    /// How far behind the start of a match its tuple starts, at most.
    fn reach(held: &Held) -> usize
        ensures { result ≡ tuple_reach wide held.now.m held.now.k };
}

/// Passes a place where l codes from there on, spaced as `S` says, are the same in query and trace, l being m ÷ (k + 1)
/// rounded down. A window has k + 1 such tuples that share no code, so k mismatches leave one whole.
pub struct Tuples<S: Spacing> {
    held: Held,
    shape: Option<Shape>,
    index: Index,
    spacing: PhantomData<S>,
    ghost fair: { Fair (question_of held) },
    ghost shaped: { ForSome shape (λ s. (0 < length (question_of held).codes) × (s.size ≡ share held.m held.k) × (s.gap ≡ gap S.wide held.k)) },
    ghost unshaped: { ForNone shape (length (question_of held).codes ≡ 0) },
    ghost headed: { 0 < length (question_of held).codes → Heads (numbers S.wide (question_of held)) (tuples S.wide (question_of held)) index.heads },
    ghost linked: { 0 < length (question_of held).codes → Links (numbers S.wide (question_of held)) (tuples S.wide (question_of held)) index.links },
}

// By hand: neither is derived for a generic struct with a ghost field.
impl<S: Spacing> Clone for Tuples<S> {
    ghost is_clone = { λ x y. y ≡ x };

    ghost is_infallible = { λ _. ⊤ };

    fn clone(&self) -> Result<Self, AllocError> {
        Ok(*self)
    }
}

impl<S: Spacing> Copy for Tuples<S> {}

impl<S: Spacing> Tuples<S> {
    /// The filter with no question set.
    pub fn new() -> Self
        ensures { StandsFor (tuple_rule S.wide) (tuple_reach S.wide) (pattern_of (tuple_rule S.wide) (tuple_reach S.wide) (question_of result.held)) none }
    {
        Tuples {
            held: Held::new(),
            shape: None,
            index: Index::new(),
            spacing: PhantomData,
        }
    }
}

impl<S: Spacing> Filter for Tuples<S> {
    ghost stands = { λ x. pattern_of (tuple_rule S.wide) (tuple_reach S.wide) (question_of x.held) };

    ghost rule = { tuple_rule S.wide };

    ghost reaches = { tuple_reach S.wide };

    ghost few = { λ x. x.fair.few };

    ghost short = { λ x. reach_short S.wide (question_of x.held) x.fair };

    ghost within = { Prim.search rules };

    ghost inside = { Prim.search rules };

    ghost below = { reach_below S.wide };

    ghost unasked = { reach_unasked S.wide };

    ghost necessary = { tuples_necessary S.wide };

    fn set(&mut self, question: Question<'_>) -> Result<(), Refusal> {
        let held = Held::of(question)?;
        let shape = shape_of::<S>(&held);
        let index = Index::of(held.codes(), shape);
        *self = Tuples {
            held,
            shape: Some(shape),
            index,
            spacing: PhantomData,
        };
        Ok(())
    }

    fn clear(&mut self) {
        *self = Self::new();
    }

    fn len(&self) -> usize {
        self.held.len()
    }

    fn reach(&self) -> usize {
        S::reach(&self.held)
    }

    fn passes(&self, trace: &[u16], i: usize, j: usize) -> bool {
        let Some(shape) = self.shape else {
            return false;
        };
        match (
            shape.tuple_at(self.held.codes(), i),
            shape.tuple_at(trace, j),
        ) {
            (Some(ours), Some(theirs)) => alike(ours, theirs, shape),
            _ => false,
        }
    }

    fn mark_row(&self, trace: &[u16], j: usize, marks: &mut [u8]) -> Result<usize, Refusal> {
        let codes = self.held.codes();
        if marks.len() < codes.len() {
            return Err(Refusal::MarksTooShort);
        }
        if codes.is_empty() {
            return Ok(0);
        }
        // Made anew, and not the one that is held: the compiler then knows how far apart neighbours lie.
        let shape = shape_of::<S>(&self.held);
        Ok(mark_row(&self.index, codes, shape, trace, j, marks))
    }
}

/// The shape of the tuples of a question.
fn shape_of<S: Spacing>(held: &Held) -> Shape
    requires some { 0 < length (question_of held.now).codes }
    requires fair { Fair (question_of held.now) }
    ensures size { result.size ≡ share held.now.m held.now.k }
    ensures gap { result.gap ≡ gap S.wide held.now.k }
{
    Shape {
        size: held.share(),
        gap: S::gap(held),
    }
}
