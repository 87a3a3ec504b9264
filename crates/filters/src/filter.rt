//! What every filter does and shows.
ghost use Rattle.std.specs.Prelude.{◌≡◌, ◌<◌, ◌≤◌, length};
ghost use Rattle.filters.specs.Asked.{asked};
ghost use Rattle.filters.specs.Filters.{Rule, Reach, Pattern, Within, StandsFor, Inside, Below, Necessary, Rowed, Answered, none, verdict};

use crate::question::Question;
use crate::refusal::Refusal;

/// A test of places (i, j) of a query and a trace that every match passes somewhere near its start.
///
/// A filter has a meaning as it stands, whatever was done to it: how many query places it has, its reach, and which
/// places it passes on a trace. `set` makes it stand for a question, that is, do what its rule says of that question,
/// and `clear` makes it stand for none: no query, no place passed, reach 0.
pub trait Filter: Copy {
    ghost stands: { Self → Pattern };

    ghost rule: { Rule };

    ghost reaches: { Reach };

    /// Sets a question, in place of what was set. Refused, it changes nothing.
    fn set(&mut self, question: Question<'_>) -> Result<(), Refusal>
        ensures answer { result ≡ verdict (length question.entry.codes.now) question.entry.m question.entry.k }
        ensures asked { Answered result (StandsFor rule reaches (stands self.new) (asked question.entry)) (self.new ≡ self.old) };

    /// Takes away what was set.
    fn clear(&mut self)
        ensures { StandsFor rule reaches (stands self.new) none };

    /// How many codes the query has.
    fn len(&self) -> usize
        ensures is { result ≡ (stands self.now).size }
        ensures few { result ≤ 1024 };

    /// How far behind the start of a match the place lies, at most, that is passed for it.
    fn reach(&self) -> usize
        ensures is { result ≡ (stands self.now).span }
        ensures short { result < 512 };

    /// Whether the place i of the query and j of the trace is passed; what is no place is not.
    // Two numbers, and no struct of both: a row fixes j alone, and each is a place in a list of its own.
    fn passes(&self, trace: &[u16], i: usize, j: usize) -> bool
        ensures { result ≡ (stands self.now).marks trace.now i j };

    /// Writes 1 into the mark of each query place that is passed with the trace place j, 0 into the others, and
    /// answers how many are passed. Marks past the query's length stay.
    // Marks are bytes: a caller may bring any buffer of bytes, and a `bool` would ask more of it.
    fn mark_row(&self, trace: &[u16], j: usize, marks: &mut [u8]) -> Result<usize, Refusal>
        ensures { Rowed (stands self.now) trace.now j marks.old marks.new result }
    {
        let q = self.len();
        if marks.len() < q {
            return Err(Refusal::MarksTooShort);
        }
        let mut n = 0;
        for (i, mark) in marks[..q].iter_mut().enumerate() {
            let passed = self.passes(trace, i, j);
            *mark = u8::from(passed);
            n += usize::from(passed);
        }
        Ok(n)
    }

    ghost few: { (x : Self) → (stands x).size ≤ 1024 };

    ghost short: { (x : Self) → (stands x).span < 512 };

    ghost within: { (x : Self) → Within (stands x) };

    ghost inside: { Inside rule };

    ghost below: { Below reaches };

    ghost unasked: { reaches 0 0 ≡ 0 };

    ghost necessary: { Necessary rule reaches };
}
