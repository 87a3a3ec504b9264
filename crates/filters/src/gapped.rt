//! The filter by tuples of codes k + 1 apart.
ghost use Rattle.std.specs.Prelude.{true};

use crate::held::Held;
use crate::tuples::{Spacing, Tuples};

/// Each code of a tuple k + 1 after the one before.
#[derive(Clone, Copy)]
pub struct Comb;

impl Spacing for Comb {
    ghost wide = { true };

    fn gap(held: &Held) -> usize {
        held.slack() + 1
    }

    fn reach(held: &Held) -> usize {
        held.slack()
    }
}

/// Passes a place where the l codes from there on, k + 1 apart, are the same in query and trace, l being m ÷ (k + 1)
/// rounded down. Of the k + 1 such combs in a window, k mismatches leave one whole.
pub type Gapped = Tuples<Comb>;
