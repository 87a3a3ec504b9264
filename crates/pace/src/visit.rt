//! The filters that are measured.
ghost use Rattle.std.specs.Prelude.{ℕ, List, OnOk, codes};

use crate::failure::Failure;
use filters::continuous::Continuous;
use filters::filter::Filter;
use filters::gapped::Gapped;
use filters::near::Near;
use filters::pass_all::PassAll;

/// What is done with each filter. A closure cannot be generic, so this is a trait.
pub trait Visitor {
    /// What has been done with the filter of a name.
    ghost done: { List ℕ → Type 0 };

    /// Does it with a filter of this name.
    fn visit<F: Filter>(&self, name: &str, filter: F) -> Result<(), Failure>
        ensures { OnOk result (done name.now) };
}

/// Shows a visitor the filters one after another, each with no question set.
pub fn visit_filters<V: Visitor>(visitor: &V) -> Result<(), Failure>
    ensures { OnOk result (V.done (codes "pass_all") × V.done (codes "continuous") × V.done (codes "gapped") × V.done (codes "near")) }
{
    visitor.visit("pass_all", PassAll::new())?;
    visitor.visit("continuous", Continuous::new())?;
    visitor.visit("gapped", Gapped::new())?;
    visitor.visit("near", Near::new(Continuous::new(), Gapped::new()))
}
