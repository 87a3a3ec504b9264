//! How the time to set a question grows with the query.
use crate::failure::Failure;
use crate::input::start;
use crate::stopwatch::time_set;
use crate::visit::{Visitor, visit_filters};
use filters::filter::Filter;
use filters::held::MOST_CODES;
use trace::pulse::Pulse;
use trace::sample::Sample;

/// Queries twice as long each, up to the longest: where the time goes by the codes, it doubles too.
const LENGTHS: [usize; 3] = [256, 512, MOST_CODES];

/// Prints of each filter how long setting takes by the length of the query.
pub fn print_growths(rt: &HostRuntime) -> Result<(), Failure> {
    visit_filters(&Growths { rt })
}

/// Prints the growth of each filter that it visits.
#[derive(Drop)]
struct Growths<'a> {
    rt: &'a HostRuntime,
}

impl Visitor for Growths<'_> {
    ghost use Rattle.std.specs.Prelude.{⊤};

    ghost done = { λ _. ⊤ };

    fn visit<F: Filter>(&self, name: &str, mut filter: F) -> Result<(), Failure> {
        let rt = self.rt;
        let mut draws = start();
        eprint!(rt; "{name} set")?;
        for q in LENGTHS {
            let query = draws.codes(rt.alloc(), q, Pulse::CODES)?;
            let set = time_set(rt, &mut filter, query.as_slice())?;
            eprint!(rt; ", {q} codes {set} ns")?;
        }
        eprintln!(rt; "")?;
        Ok(())
    }
}
