//! Flywheel pulses.
ghost use Rattle.std.specs.Prelude.{◌≡◌, ◌≤◌, [], ◌∷◌};
ghost use Rattle.trace.specs.declared.pulse.TheConstants.{CLASS_TOP};

use crate::kind::KindName;
use crate::refusal::Refusal;
use crate::sample::{MOST_FIELDS, Sample};

/// The largest class.
const CLASS_TOP: u16 = 19;

/// A flywheel pulse, by its class, 0 to 19.
#[derive(Clone, Copy, PartialEq, Debug)]
pub struct Pulse {
    class: u8,
    ghost in_range: { class ≤ CLASS_TOP },
}

impl Pulse {
    /// The class.
    pub fn class(&self) -> u8
        ensures is { result ≡ self.now.class }
        ensures top { result ≤ 19 }
    {
        self.class
    }
}

impl Sample for Pulse {
    ghost use Rattle.std.proofs.Common.{sym, ap, ◌∙◌, arith, rules};
    ghost use Rattle.trace.specs.Kinds.{pulse};
    ghost use Rattle.trace.specs.PulseSampleLemmas;
    ghost use Rattle.trace.specs.declared.kind.KindName.TheVariants as name;

    const KIND: KindName = KindName::Pulse;

    const CODES: u16 = CLASS_TOP + 1;

    const FIELDS: usize = 1;

    const TOPS: [u16; MOST_FIELDS] = [CLASS_TOP, 0, 0, 0];

    ghost KIND = { name.Pulse };

    ghost CODES = { 20 };

    ghost FIELDS = { 1 };

    ghost TOPS = { CLASS_TOP ∷ 0 ∷ 0 ∷ 0 ∷ [] };

    ghost kind = { pulse };

    ghost named = { Prim.search rules };

    ghost coded = { Prim.search rules };

    ghost counted = { Prim.search rules };

    ghost topped = { Prim.search rules };

    ghost numbered = { Prim.search rules };

    ghost known = { Prim.search rules };

    ghost few = { Prim.search rules };

    ghost some = { Prim.search rules };

    ghost four = { Prim.search rules };

    ghost small = { Prim.search rules };

    ghost fits = { Prim.search rules };

    ghost below = { λ xs w. omega (arith, (PulseSampleLemmas.class xs w).1) };

    ghost distinct = { λ xs ys v w e. (PulseSampleLemmas.class xs v).0 ∙ ap (λ x. x ∷ []) e ∙ sym (PulseSampleLemmas.class ys w).0 };

    ghost agreeing = { Prim.search rules };

    ghost equals = { Prim.search rules };

    fn make(fields: [u16; MOST_FIELDS]) -> Result<Pulse, Refusal> {
        let [class, ..] = fields;
        if class <= CLASS_TOP {
            Ok(Pulse { class: class as u8 })
        } else {
            Err(Refusal::OutOfRange)
        }
    }

    fn code(&self) -> u16 {
        u16::from(self.class)
    }

    fn agree(a: u16, b: u16) -> bool {
        a == b
    }
}
