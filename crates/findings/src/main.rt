//! Searches one query in traces. Standard input has the numbers m and k and, each behind its length in bytes, the query's
//! trace file and those of the traces. Printed are the matches and a summary, or the number of the first refusal.
#![tactic(auto)]

mod desk;
mod frame;
mod refusal;
mod report;
mod session;

use console::input::fill;
use console::parts::LONGEST_INPUT;
use report::report;
use std::io;

// As in the other programs: a shared one would take the report as a closure, and ask its caller that it may be called.
fn main(rt: HostRuntime) -> io::Result<()> {
    let heap = rt.alloc();
    // One byte more than the program takes, so that a longer input is refused and not cut off.
    let mut buffer = vec![in heap; 0u8; LONGEST_INPUT + 1]?;
    let size = fill(&mut rt.stdin(), buffer.as_mut_slice())?;
    buffer.truncate(size);
    rt.print(report(heap, buffer.as_slice())?)
}
