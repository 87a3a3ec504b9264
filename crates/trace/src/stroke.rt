//! Strokes.
ghost use Rattle.std.specs.Prelude.{◌≡◌, ◌≤◌, [], ◌∷◌, slice_index_or};
ghost use Rattle.trace.specs.declared.stroke.TheConstants.{DRIVE_TOP, RECOVERY_TOP, SLACK_TOP};

use crate::kind::KindName;
use crate::refusal::Refusal;
use crate::sample::{MOST_FIELDS, Sample};

/// The largest drive.
const DRIVE_TOP: u16 = 9;

/// The largest recovery.
const RECOVERY_TOP: u16 = 5;

/// The largest slack.
const SLACK_TOP: u16 = 1;

/// How many codes a recovery has: one for each slack.
const RECOVERY_CODES: u16 = SLACK_TOP + 1;

/// How many codes a drive has: those of each recovery.
const DRIVE_CODES: u16 = (RECOVERY_TOP + 1) * RECOVERY_CODES;

/// A stroke: drive 0 to 9, recovery 0 to 5, slack 0 to 1.
#[derive(Clone, Copy, PartialEq, Debug)]
pub struct Stroke {
    drive: u8,
    recovery: u8,
    slack: u8,
    ghost drive_in_range: { drive ≤ DRIVE_TOP },
    ghost recovery_in_range: { recovery ≤ RECOVERY_TOP },
    ghost slack_in_range: { slack ≤ SLACK_TOP },
}

impl Stroke {
    pub fn drive(&self) -> u8
        ensures is { result ≡ self.now.drive }
        ensures top { result ≤ 9 }
    {
        self.drive
    }

    pub fn recovery(&self) -> u8
        ensures is { result ≡ self.now.recovery }
        ensures top { result ≤ 5 }
    {
        self.recovery
    }

    pub fn slack(&self) -> u8
        ensures is { result ≡ self.now.slack }
        ensures top { result ≤ 1 }
    {
        self.slack
    }
}

impl Sample for Stroke {
    ghost use Rattle.std.proofs.Common.{arith, rules};
    ghost use Rattle.trace.specs.Kinds.{stroke};
    ghost use Rattle.trace.specs.StrokeSampleLemmas.{three};
    ghost use Rattle.trace.specs.declared.kind.KindName.TheVariants as name;

    const KIND: KindName = KindName::Stroke;

    const CODES: u16 = (DRIVE_TOP + 1) * DRIVE_CODES;

    const FIELDS: usize = 3;

    const TOPS: [u16; MOST_FIELDS] = [DRIVE_TOP, RECOVERY_TOP, SLACK_TOP, 0];

    ghost KIND = { name.Stroke };

    ghost CODES = { 120 };

    ghost FIELDS = { 3 };

    ghost TOPS = { DRIVE_TOP ∷ RECOVERY_TOP ∷ SLACK_TOP ∷ 0 ∷ [] };

    ghost kind = { stroke };

    ghost named = { Prim.search rules };

    ghost coded = { Prim.search rules };

    ghost counted = { Prim.search rules };

    ghost topped = { Prim.search rules };

    ghost numbered = { Prim.search rules };

    ghost known = { Prim.search rules };

    ghost few = { Prim.search rules };

    ghost some = { Prim.search rules };

    ghost four = { Prim.search rules };

    ghost small = { Prim.search rules };

    ghost fits = { Prim.search rules };

    ghost below = { λ xs w. let x = three xs w in omega (arith, x.drive, x.recovery, x.slack) };

    ghost distinct = { λ xs ys v w e.
        let x = three xs v in
        let y = three ys w in
        let drive : slice_index_or xs 0 0 ≡ slice_index_or ys 0 0 = omega (arith, e) in
        let recovery : slice_index_or xs 1 0 ≡ slice_index_or ys 1 0 = omega (arith, e) in
        let slack : slice_index_or xs 2 0 ≡ slice_index_or ys 2 0 = omega (arith, e) in
        let p = x.is in
        let q = y.is in
        cc };

    ghost agreeing = { Prim.search rules };

    ghost equals = { Prim.search rules };

    fn make(fields: [u16; MOST_FIELDS]) -> Result<Stroke, Refusal> {
        let [drive, recovery, slack, _] = fields;
        if drive <= DRIVE_TOP && recovery <= RECOVERY_TOP && slack <= SLACK_TOP {
            Ok(Stroke {
                drive: drive as u8,
                recovery: recovery as u8,
                slack: slack as u8,
            })
        } else {
            Err(Refusal::OutOfRange)
        }
    }

    fn code(&self) -> u16 {
        u16::from(self.drive) * DRIVE_CODES
            + u16::from(self.recovery) * RECOVERY_CODES
            + u16::from(self.slack)
    }

    fn agree(a: u16, b: u16) -> bool {
        a == b
    }
}
