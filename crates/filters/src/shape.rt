//! The shape of a tuple.
ghost use Rattle.std.specs.Prelude.{◌≡◌, ℕ, ◌+◌, ◌-◌, ◌*◌, ◌<◌, ◌≤◌, true, length, drop, IfOk, IfErr, IfSome, IfNone};
ghost use Rattle.filters.specs.Tuples.{starts, shapeless};

use crate::held::LONGEST_WINDOW;
use crate::refusal::Refusal;

/// The longest tuple: with no mismatches, a whole window.
const LONGEST_TUPLE: usize = LONGEST_WINDOW;
/// The widest gap between its codes.
const WIDEST_GAP: usize = 16;

/// How many codes a tuple has, and how far apart they lie.
#[derive(Clone, Copy)]
pub(crate) struct Shape {
    pub(crate) size: usize,
    pub(crate) gap: usize,
    ghost some: { 0 < size },
    ghost short: { size ≤ 512 },
    ghost apart: { 0 < gap },
    ghost near: { gap ≤ 16 },
}

impl Shape {
    /// The shape of tuples of so many codes, so far apart.
    pub(crate) fn new(size: usize, gap: usize) -> Result<Self, Refusal>
        ensures made { IfOk result (λ shape. (shape.size ≡ size) × (shape.gap ≡ gap)) }
        ensures refused { IfErr result (λ e. (e ≡ Refusal.NoTuples) × (shapeless size gap ≡ true)) }
    {
        if size == 0 || size > LONGEST_TUPLE || gap == 0 || gap > WIDEST_GAP {
            return Err(Refusal::NoTuples);
        }
        Ok(Shape { size, gap })
    }

    /// How far the last code of a tuple lies behind its first.
    pub(crate) fn span(self) -> usize
        ensures { result ≡ (self.size - 1) * self.gap }
    {
        (self.size - 1) * self.gap
    }

    /// How many tuples begin in so many codes.
    pub(crate) fn starts(self, n: usize) -> usize
        ensures { result ≡ starts self.size self.gap n }
    {
        n.saturating_sub(self.span())
    }

    /// The codes from a place on, if a tuple begins there.
    pub(crate) fn tuple_at(self, codes: &[u16], at: usize) -> Option<&[u16]>
        ensures begins { IfSome result (λ tuple. (at + (self.size - 1) * self.gap < length codes.now) × (tuple.now ≡ drop at codes.now)) }
        ensures none { IfNone result (length codes.now ≤ at + (self.size - 1) * self.gap) }
    {
        let tuple = codes.get(at..)?;
        // A test and not `filter`, with which a dense row of two filters together took a sixth longer.
        if self.span() < tuple.len() {
            Some(tuple)
        } else {
            None
        }
    }
}
