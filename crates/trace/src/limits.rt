//! The numbers of a kind, told at once; each kind's own stand in a contract of their own.
ghost use Rattle.std.specs.Prelude.{◌≡◌, ℕ, ◌+◌, ◌*◌, Bool, List, [], ◌∷◌, length, ◌==◌, slice_index};
ghost use Rattle.trace.specs.KindNames.{kind_number};
ghost use Rattle.trace.specs.Kinds.{pulse, stroke};
ghost use Rattle.trace.specs.declared.kind.KindName.TheVariants as name;

use crate::kind::KindName;
use crate::pulse::Pulse;
use crate::sample::{MOST_FIELDS, Sample};
use crate::stroke::Stroke;

/// A kind's name, its counts of codes and fields, and the largest value of each field (0 where there is none).
#[derive(Clone, Copy, Debug)]
pub struct Limits {
    pub kind: KindName,
    pub codes: u16,
    pub fields: usize,
    pub tops: [u16; MOST_FIELDS],
}

/// The numbers of a kind.
pub fn limits_of<S: Sample>() -> Limits
    ensures limits { result ≡ record { kind = S.KIND; codes = S.kind.codes; fields = length S.kind.tops; tops = slice_index S.kind.tops 0 ∷ slice_index S.kind.tops 1 ∷ slice_index S.kind.tops 2 ∷ slice_index S.kind.tops 3 ∷ [] } }
    ensures numbered { kind_number result.kind ≡ S.kind.number }
{
    Limits {
        kind: S::KIND,
        codes: S::CODES,
        fields: S::FIELDS,
        tops: S::TOPS,
    }
}

// One function for each kind, whose own numbers its contract says once more, apart from the definitions.

/// Pulses are kind 1: 20 codes, one field, the class, of at most 19. The code is the class, and codes agree if equal.
pub fn pulse_limits() -> Limits
    ensures limits { result ≡ record { kind = name.Pulse; codes = 20; fields = 1; tops = 19 ∷ 0 ∷ 0 ∷ 0 ∷ [] } }
    ensures numbered { kind_number result.kind ≡ 1 }
    ensures coded { (class : ℕ) → pulse.code (class ∷ []) ≡ class }
    ensures agree { (a b : ℕ) → pulse.agree a b ≡ (a == b) }
{
    limits_of::<Pulse>()
}

/// Strokes are kind 2: 120 codes, three fields, drive of at most 9, recovery of at most 5 and slack of at most 1. A
/// stroke's code counts its drive by twelves, its recovery by twos and its slack by ones; codes agree if equal.
pub fn stroke_limits() -> Limits
    ensures limits { result ≡ record { kind = name.Stroke; codes = 120; fields = 3; tops = 9 ∷ 5 ∷ 1 ∷ 0 ∷ [] } }
    ensures numbered { kind_number result.kind ≡ 2 }
    ensures coded { (drive recovery slack : ℕ) → stroke.code (drive ∷ recovery ∷ slack ∷ []) ≡ drive * 12 + recovery * 2 + slack }
    ensures agree { (a b : ℕ) → stroke.agree a b ≡ (a == b) }
{
    limits_of::<Stroke>()
}
