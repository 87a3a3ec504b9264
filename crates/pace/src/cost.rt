//! What each filter costs on an input.
use crate::failure::Failure;
use crate::input::Input;
use crate::stopwatch::{time_rows, time_set};
use crate::visit::{Visitor, visit_filters};
use filters::filter::Filter;

/// Prints of each filter which places it passes on an input, and what it takes.
pub fn print_costs(rt: &HostRuntime, input: &Input) -> Result<(), Failure> {
    visit_filters(&Costs { rt, input })
}

/// Prints the cost of each filter that it visits.
#[derive(Drop)]
struct Costs<'a> {
    rt: &'a HostRuntime,
    input: &'a Input,
}

impl Visitor for Costs<'_> {
    ghost use Rattle.std.specs.Prelude.{⊤};

    ghost done = { λ _. ⊤ };

    fn visit<F: Filter>(&self, filter_name: &str, mut filter: F) -> Result<(), Failure> {
        let rt = self.rt;
        let input_name = self.input.name;
        let query = self.input.query.as_slice();
        let trace = self.input.trace.as_slice();
        let mut marks = vec![in rt.alloc(); 0u8; query.len()]?;
        let set = time_set(rt, &mut filter, query)?;
        let (places, row) = time_rows(rt, &filter, trace, self.input.rows, marks.as_mut_slice())?;
        println!(rt; "{input_name} {filter_name} places {places}")?;
        eprintln!(rt; "{input_name} {filter_name} set {set} ns, row {row} ns")?;
        Ok(())
    }
}
