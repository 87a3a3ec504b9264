//! What a trace is made of: kinds of samples.
ghost use Rattle.std.specs.Prelude.{◌≡◌, ℕ, ◌<◌, ◌≤◌, Bool, true, List, [], ◌∷◌, length, take, slice_index};
ghost use Rattle.trace.specs.KindNames.{kind_number};
ghost use Rattle.trace.specs.Kinds.{Kind, Within, kinds, made};
ghost use Rattle.trace.specs.Refusals.{answer, told};
ghost use Rattle.trace.specs.declared.kind.KindName.{KindName};

use crate::kind::KindName;
use crate::refusal::Refusal;

/// The most fields that a sample has.
pub const MOST_FIELDS: usize = 4;

/// A kind of sample. What it means is its ghost member `kind`; the laws are what every kind shows.
pub trait Sample: Copy {
    /// The kind's name, whose number a file has.
    const KIND: KindName;

    /// How many codes there are.
    const CODES: u16;

    /// How many fields a sample has.
    const FIELDS: usize;

    /// The largest value of each field; 0 past the last one.
    const TOPS: [u16; MOST_FIELDS];

    ghost KIND: { KindName };

    ghost CODES: { ℕ };

    ghost FIELDS: { ℕ };

    ghost TOPS: { List ℕ };

    ghost kind: { Kind Self };

    /// The largest value of a field, counted from 0; past the last field it is 0.
    // Beside the constant, which has four entries and so cannot be asked for every field.
    fn top(field: usize) -> u16
        ensures { result ≡ slice_index kind.tops field }
    {
        let tops = Self::TOPS;
        if field < MOST_FIELDS { tops[field] } else { 0 }
    }

    /// The sample with these fields; numbers past the fields are ignored.
    fn make(fields: [u16; MOST_FIELDS]) -> Result<Self, Refusal>
        ensures { answer kind.fields told result ≡ made kind.tops fields };

    /// The sample's code.
    fn code(&self) -> u16
        ensures { result ≡ kind.code (kind.fields self.now) };

    /// Whether two codes agree.
    fn agree(a: u16, b: u16) -> bool
        ensures { result ≡ kind.agree a b };

    ghost named: { kind_number KIND ≡ kind.number };

    ghost coded: { CODES ≡ kind.codes };

    ghost counted: { FIELDS ≡ length kind.tops };

    ghost topped: { (field : ℕ) → slice_index TOPS field ≡ slice_index kind.tops field };

    ghost numbered: { 1 ≤ kind.number };

    ghost known: { kind.number ≤ kinds };

    ghost few: { kind.codes ≤ 640 };

    ghost some: { 1 ≤ length kind.tops };

    ghost four: { length kind.tops ≤ 4 };

    ghost small: { (f : ℕ) → slice_index kind.tops f ≤ 639 };

    ghost fits: { (s : Self) → Within (kind.fields s) kind.tops };

    ghost below: { (xs : List ℕ) → Within xs kind.tops → kind.code xs < kind.codes };

    ghost distinct: { (xs ys : List ℕ) → Within xs kind.tops → Within ys kind.tops → kind.code xs ≡ kind.code ys → xs ≡ ys };

    ghost agreeing: { (a b : ℕ) → kind.agree a b ≡ true → a ≡ b };

    ghost equals: { (a : ℕ) → kind.agree a a ≡ true };
}

/// A sample whose fields are all 0, for memory that samples are then read into.
pub fn blank<S: Sample>() -> S
    ensures { S.kind.fields result ≡ take (length S.kind.tops) (0 ∷ 0 ∷ 0 ∷ 0 ∷ []) }
{
    S::make([0; MOST_FIELDS]).unwrap()
}
