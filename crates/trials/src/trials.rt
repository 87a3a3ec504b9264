//! Cases drawn and tried one after another.
ghost use Rattle.std.specs.Prelude.{◌≡◌, ◌+◌, ◌^◌, ◌<◌, ◌≤◌};

use crate::cases::Case;
use crate::compare::compare;
use crate::difference::Fault;
use crate::failure::Failure;
use crate::filter_set::Filters;
use crate::naive::all_matches;
use crate::tally::Tally;
use draws::Draws;
use filters::filter::Filter;
use search::matches::Match;

/// The cases of each alphabet: many, and yet all are tried within a few seconds.
const CASES: u32 = 2_000;

/// Draws and tries the cases of one alphabet, which are numbered on from those before.
pub fn try_cases(
    rt: &HostRuntime,
    draws: &mut Draws,
    filters: &mut Filters,
    alphabet: u16,
    before: u32,
) -> Result<Tally, Failure> {
    let mut tally = Tally::new();
    for turn in 0..CASES {
        let number = before.saturating_add(turn).saturating_add(1);
        let case = Case::draw(rt.alloc(), draws, number, alphabet)?;
        let expected = all_matches(rt.alloc(), &case)?;
        tally.count(expected.len(), case.refused.is_some());
        let mut trial = Trial {
            rt,
            case: &case,
            expected: expected.as_slice(),
            differ: 0,
            tried: 0,
        };
        filters.run(&mut trial)?;
        tally.differ = tally.differ.saturating_add(trial.differ);
    }
    Ok(tally)
}

/// A case that is tried with one filter after another.
#[derive(Drop)]
pub struct Trial<'a> {
    rt: &'a HostRuntime,
    case: &'a Case,
    expected: &'a [Match],
    /// How many filters answer otherwise than expected.
    differ: u32,
    /// How many filters it was tried with.
    tried: u32,
}

impl Trial<'_> {
    /// Tries the case with a filter, and prints how it answers otherwise than expected, if it does.
    pub fn run<F: Filter>(&mut self, name: &str, filter: &mut F) -> Result<(), Failure>
        ensures differ { (self.old.differ ≤ self.new.differ) × (self.new.differ ≤ self.old.differ + 1) }
        ensures tried { self.old.tried + 1 < 2 ^ 32 → self.new.tried ≡ self.old.tried + 1 }
    {
        self.tried = self.tried.saturating_add(1);
        match compare(self.rt.alloc(), filter, self.case, self.expected) {
            Ok(()) => Ok(()),
            Err(Fault::Differs(difference)) => {
                self.differ = self.differ.saturating_add(1);
                let number = self.case.number;
                println!(self.rt; "case {number}, filter {name}: {difference}")?;
                Ok(())
            }
            Err(Fault::Memory(error)) => Err(error.into()),
        }
    }
}
