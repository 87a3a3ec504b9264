//! The filters that are tried.
ghost use Rattle.std.specs.Prelude.{◌≡◌, ◌+◌, ◌^◌, ◌<◌, ◌≤◌, OnOk};
ghost use Rattle.trials.specs.declared.filter_set.TheConstants.{FILTERS};

use crate::failure::Failure;
use crate::trials::Trial;
use filters::continuous::Continuous;
use filters::gapped::Gapped;
use filters::near::Near;
use filters::pass_all::PassAll;

/// How many filters are tried: as many as `run` hands on.
pub const FILTERS: usize = 7;

/// The filters themselves. They are kept from case to case, so that what an earlier question has left behind would show.
/// Two filters are put together in either order, and two such together with a third in either place.
#[derive(Drop)]
pub struct Filters {
    pass_all: PassAll,
    continuous: Continuous,
    gapped: Gapped,
    continuous_gapped: Near<Continuous, Gapped>,
    gapped_continuous: Near<Gapped, Continuous>,
    nested_first: Near<Near<Continuous, Gapped>, PassAll>,
    nested_second: Near<Gapped, Near<PassAll, Continuous>>,
}

impl Filters {
    /// The filters with no question set.
    pub fn new() -> Filters {
        let continuous_gapped = Near::new(Continuous::new(), Gapped::new());
        let pass_all_continuous = Near::new(PassAll::new(), Continuous::new());
        Filters {
            pass_all: PassAll::new(),
            continuous: Continuous::new(),
            gapped: Gapped::new(),
            continuous_gapped: Near::new(Continuous::new(), Gapped::new()),
            gapped_continuous: Near::new(Gapped::new(), Continuous::new()),
            nested_first: Near::new(continuous_gapped, PassAll::new()),
            nested_second: Near::new(Gapped::new(), pass_all_continuous),
        }
    }

    /// Runs a trial with every filter in turn.
    pub fn run(&mut self, trial: &mut Trial) -> Result<(), Failure>
        ensures differ { (trial.old.differ ≤ trial.new.differ) × (trial.new.differ ≤ trial.old.differ + 7) }
        ensures tried { trial.old.tried + FILTERS < 2 ^ 32 → OnOk result (trial.new.tried ≡ trial.old.tried + FILTERS) }
    {
        trial.run("PassAll", &mut self.pass_all)?;
        trial.run("Continuous", &mut self.continuous)?;
        trial.run("Gapped", &mut self.gapped)?;
        trial.run("Near<Continuous, Gapped>", &mut self.continuous_gapped)?;
        trial.run("Near<Gapped, Continuous>", &mut self.gapped_continuous)?;
        trial.run(
            "Near<Near<Continuous, Gapped>, PassAll>",
            &mut self.nested_first,
        )?;
        trial.run(
            "Near<Gapped, Near<PassAll, Continuous>>",
            &mut self.nested_second,
        )
    }
}
