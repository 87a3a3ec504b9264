//! The question that a filter was set for.
ghost use Rattle.std.specs.Prelude.{◌≡◌, ◌≤◌, length, take, Ok, Err};
ghost use Rattle.filters.specs.Asked.{asked};
ghost use Rattle.filters.specs.Questions.{question, Sizes, share};
ghost use Rattle.filters.specs.Filters.{Fair, verdict, none};

use crate::question::Question;
use crate::refusal::Refusal;

/// The most codes of a query.
pub const MOST_CODES: usize = 1_024;
/// The longest window.
pub const LONGEST_WINDOW: usize = 512;
/// The most mismatches that may be asked for.
const MOST_MISMATCHES: usize = 15;

/// A question, or none: its codes, the length m of its windows, and how many mismatches k they may have. A query has few enough
/// codes for an array, so that a question is refused for its numbers alone and never for want of memory.
// An array and how many of its codes count: a filter is copied whole, and may not use the heap. It has no model: what holds
// a value that has one cannot be passed by value and used again, and filters are.
#[derive(Clone, Copy)]
pub struct Held {
    codes: [u16; MOST_CODES],
    q: usize,
    m: usize,
    k: usize,
    ghost full: { length codes ≡ 1024 },
    ghost sizes: { Sizes q m k },
}

impl Held {
    ghost use Rattle.filters.specs.Asking.{question_of};

    /// No question.
    // A question of no codes, and no option: what is read of a question can be read of it too.
    pub fn new() -> Self
        ensures { question_of result ≡ none }
    {
        Held {
            codes: [0; MOST_CODES],
            q: 0,
            m: 0,
            k: 0,
        }
    }

    /// A question, held, if it can be set.
    pub fn of(question: Question<'_>) -> Result<Self, Refusal>
        ensures { let a = asked question.entry in elim result [ Ok held ↦ (Ok tt ≡ verdict (length a.codes) a.m a.k) × (question_of held ≡ a) × Fair (question_of held) | Err e ↦ Err e ≡ verdict (length a.codes) a.m a.k ] }
    {
        let mut held = Held::new();
        held.set(question)?;
        Ok(held)
    }

    /// Takes the question away.
    pub fn clear(&mut self)
        ensures { question_of self.new ≡ none }
    {
        self.q = 0;
        self.m = 0;
        self.k = 0;
    }

    /// Takes a question in; refused, it keeps the one before.
    pub fn set(&mut self, question: Question<'_>) -> Result<(), Refusal>
        ensures answer { result ≡ verdict (length question.entry.codes.now) question.entry.m question.entry.k }
        ensures asked { elim result [ Ok _ ↦ question_of self.new ≡ asked question.entry | Err _ ↦ self.new ≡ self.old ] }
    {
        let Question { codes, m, k } = question;
        judge(codes.len(), m, k)?;
        copy(&mut self.codes, codes);
        self.q = codes.len();
        self.m = m;
        self.k = k;
        Ok(())
    }

    /// The question that is held, as it is brought to calls.
    pub fn as_question(&self) -> Question<'_>
        ensures { asked result ≡ question_of self.now }
    {
        Question {
            codes: self.codes(),
            m: self.m,
            k: self.k,
        }
    }

    /// How many codes the query has.
    pub fn len(&self) -> usize
        ensures { result ≡ length (question_of self.now).codes }
    {
        self.q
    }

    /// The length m of a window.
    pub fn window(&self) -> usize
        ensures { result ≡ self.now.m }
    {
        self.m
    }

    /// The mismatches k that a window may have.
    pub fn slack(&self) -> usize
        ensures { (result ≡ self.now.k) × (result ≤ 15) × Fair (question_of self.now) }
    {
        self.k
    }

    /// How many codes a tuple has: so many are sure to agree in one of k + 1 parts of a window.
    pub fn share(&self) -> usize
        ensures { result ≡ share self.now.m self.now.k }
    {
        self.m / (self.k + 1)
    }

    /// The query's codes.
    pub fn codes(&self) -> &[u16]
        ensures { result.now ≡ (question_of self.now).codes }
    {
        &self.codes[..self.q]
    }
}

/// Whether a question can be set, by its numbers.
fn judge(q: usize, m: usize, k: usize) -> Result<(), Refusal>
    ensures answer { result ≡ verdict q m k }
    ensures sizes { elim result [ Ok _ ↦ Sizes q m k | Err _ ↦ Unit {0} ] }
{
    if q > MOST_CODES {
        return Err(Refusal::QueryTooLong);
    }
    if m == 0 || m > LONGEST_WINDOW || m > q {
        return Err(Refusal::BadLength);
    }
    if k > MOST_MISMATCHES || k >= m {
        return Err(Refusal::BadMismatches);
    }
    Ok(())
}

/// Copies codes into the front of an array.
// Apart from `set`, since no part of a field can be lent for writing there.
fn copy(into: &mut [u16; MOST_CODES], from: &[u16])
    requires { length from.now ≤ 1024 }
    ensures full { length into.new ≡ 1024 }
    ensures copied { take (length from.now) into.new ≡ from.now }
{
    into[..from.len()].copy_from_slice(from);
}
