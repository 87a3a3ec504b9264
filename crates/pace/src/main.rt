//! Measures what filters cost. What they pass, which is the same in every run, goes to the standard output, and the
//! times, which are not, go to the standard error.
#![tactic(auto)]

mod cost;
mod failure;
mod growth;
mod input;
mod places;
mod question;
mod stopwatch;
mod visit;

use crate::cost::print_costs;
use crate::failure::Failure;
use crate::growth::print_growths;
use crate::input::Input;

fn main(rt: HostRuntime) -> Result<(), Failure> {
    run(&rt)
}

fn run(rt: &HostRuntime) -> Result<(), Failure> {
    print_costs(rt, &Input::random(rt.alloc())?)?;
    print_costs(rt, &Input::dense(rt.alloc())?)?;
    print_growths(rt)
}
