//! Tries the search on many small cases, the same ones in every run, against a search that only compares.
#![tactic(auto)]

ghost use Rattle.std.specs.Prelude.{◌≡◌};

mod cases;
mod compare;
mod difference;
mod failure;
mod filter_set;
mod naive;
mod passed;
mod planting;
mod refused;
mod tally;
mod trials;

use crate::failure::Failure;
use crate::filter_set::{FILTERS, Filters};
use crate::tally::Tally;
use crate::trials::try_cases;
use draws::Draws;

/// Where the draws start. Any number will do, as long as it stays the same.
const SEED: u64 = 4_021_989;

/// The draws from the start on.
fn start() -> Draws
    ensures { result.state ≡ 4021989 }
{
    Draws::new(SEED)
}

/// How many codes there are to draw from. With two or three, windows match by chance, and tuples agree where nothing
/// matches; with 20, as many as pulses have, codes seldom agree unless they were planted.
const ALPHABETS: [u16; 3] = [2, 3, 20];

fn main(rt: HostRuntime) -> Result<(), Failure> {
    run(&rt)
}

fn run(rt: &HostRuntime) -> Result<(), Failure> {
    let mut draws = start();
    let mut filters = Filters::new();
    let mut total = Tally::new();
    for alphabet in ALPHABETS {
        let tally = try_cases(rt, &mut draws, &mut filters, alphabet, total.cases)?;
        let Tally { cases, matches, .. } = tally;
        println!(rt; "alphabet {alphabet}: cases {cases}, matches {matches}")?;
        total.add(tally);
    }
    print_total(rt, total)
}

fn print_total(rt: &HostRuntime, total: Tally) -> Result<(), Failure> {
    let Tally {
        cases,
        refused,
        differ,
        ..
    } = total;
    println!(rt; "cases {cases}, questions refused {refused}, filters {FILTERS}")?;
    println!(rt; "differ {differ}")?;
    Ok(())
}
