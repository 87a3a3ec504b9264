//! The windows of a question and of one trace.
ghost use Rattle.std.specs.Prelude.{◌≡◌, ◌+◌, ◌*◌, ◌<◌, ◌≤◌, length, nat_le, slice_index};
ghost use Rattle.filters.specs.Matching.{mismatches};
ghost use Rattle.filters.specs.Asked.{asked};
ghost use Rattle.search.specs.Comparing.{at_most, fits, match_at};
ghost use Rattle.search.specs.Listing.{tested_row, Filled};

use crate::matches::Match;
use filters::question::Question;
use trace::sample::Sample;

/// At how many places two windows of one length do not agree, where that is at most k.
pub(crate) fn compare<S: Sample>(window: &[u16], other: &[u16], k: usize) -> Option<usize>
    requires { length window.now ≡ length other.now }
    ensures { result ≡ at_most k (mismatches S.kind.agree window.now other.now 0 0 (length window.now)) }
{
    let mut n = 0;
    // Not by `filter`, `take` and `count`, which take twice as long.
    for (code, opposite) in window.iter().zip(other) {
        if !S::agree(*code, *opposite) {
            if n == k {
                return None;
            }
            n += 1;
        }
    }
    Some(n)
}

/// What one scan compares: the windows of a question with those of a trace, where the next passed place is near.
#[derive(Clone, Copy)]
pub(crate) struct Comparison<'a> {
    pub question: Question<'a>,
    pub trace: &'a [u16],
    pub accession: u32,
    /// How far ahead on its diagonal the next passed place may be.
    pub reach: u16,
    ghost short: { length trace.now ≤ 4096 },
    ghost few: { length question.codes.now ≤ 1024 },
}

impl Comparison<'_> {
    /// Whether windows begin in the trace's row j.
    fn fits(&self, j: usize) -> bool
        requires { j < length self.now.trace.now }
        ensures { result ≡ fits (asked self.now.question) self.now.trace.now j }
    {
        let Question { codes, m, .. } = self.question;
        m > 0 && m <= codes.len() && m <= self.trace.len() - j
    }

    /// The match of the windows from i and from j, if they match.
    fn match_at<S: Sample>(&self, i: usize, j: usize) -> Option<Match>
        requires some { 0 < self.now.question.m }
        requires inside { (i + self.now.question.m ≤ length self.now.question.codes.now) × (j + self.now.question.m ≤ length self.now.trace.now) }
        ensures { result ≡ match_at self.now.accession S.kind.agree (asked self.now.question) self.now.trace.now i j }
    {
        let Question { codes, m, k } = self.question;
        let mismatches = compare::<S>(&codes[i..i + m], &self.trace[j..j + m], k)?;
        Some(Match {
            accession: self.accession,
            trace: j as u16,
            query: i as u16,
            mismatches: mismatches as u16,
        })
    }

    /// Counts the windows of the row j that match and have `ahead` at most reach, beside `before` others, and writes
    /// them from the back of `out` where it has room.
    pub(crate) fn list_row<S: Sample>(
        &self,
        j: usize,
        ahead: &[u16],
        before: usize,
        out: &mut [Match],
    ) -> usize
        requires sizes { (j < length self.now.trace.now) × (length self.now.question.codes.now ≤ length ahead.now) }
        requires few { before ≤ 4096 * 1024 }
        ensures { Filled out.old out.new before result (tested_row self.now.accession S.kind.agree (asked self.now.question) self.now.trace.now (λ i. nat_le (slice_index ahead.now i) self.now.reach) j) }
    {
        if !self.fits(j) {
            return before;
        }
        let Question { codes, m, .. } = self.question;
        let mut pairs = before;
        // By place: an iterator over `ahead` from its back takes twice as long.
        for i in (0..codes.len() - m + 1).rev() {
            if ahead[i] <= self.reach
                && let Some(found) = self.match_at::<S>(i, j)
            {
                pairs += 1;
                if let Some(at) = out.len().checked_sub(pairs) {
                    out[at] = found;
                }
            }
        }
        pairs
    }
}
