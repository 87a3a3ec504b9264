//! The filter by tuples of neighbouring codes.
ghost use Rattle.std.specs.Prelude.{false};

use crate::held::Held;
use crate::tuples::{Spacing, Tuples};

/// Each code of a tuple next to the one before.
#[derive(Clone, Copy)]
pub struct Neighbours;

impl Spacing for Neighbours {
    ghost wide = { false };

    fn gap(_held: &Held) -> usize {
        1
    }

    fn reach(held: &Held) -> usize {
        held.window() - held.share()
    }
}

/// Passes a place where the l codes from there on, l being m ÷ (k + 1) rounded down, are the same in query and trace. Of
/// k + 1 such stretches in a window, k mismatches leave one whole.
pub type Continuous = Tuples<Neighbours>;
