//! A question to try filters on, and the worked examples of tuple numbers and of places passed.
ghost use Rattle.std.specs.Prelude.{◌≡◌, true, false};
ghost use Rattle.filters.specs.Examples.{Examples, changed};
ghost use Rattle.filters.specs.Rules.{tuple_rule};

use crate::continuous::Continuous;
use crate::filter::Filter;
use crate::gapped::Gapped;

/// The trace of the first worked example, for a query of the codes 1 to 6: it has 7 in place of the 3.
pub fn changed_codes() -> [u16; 8]
    ensures codes { result ≡ changed }
    ensures examples { Examples }
    ensures continuous { ⟦<Continuous as Filter>⟧.rule ≡ tuple_rule false }
    ensures gapped { ⟦<Gapped as Filter>⟧.rule ≡ tuple_rule true }
{
    [9, 1, 2, 7, 4, 5, 6, 9]
}
