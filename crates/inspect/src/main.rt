//! Reads a trace file of any kind from standard input, and prints what it holds or why it is refused.
#![tactic(auto)]

mod any_kind;
mod blocks;
mod padding;
mod report;
mod shown;
mod words;

use any_kind::LONGEST_FILE;
use console::input::fill;
use report::report;
use std::io;

// As in the other programs: a shared one would take the report as a closure, and ask its caller that it may be called.
fn main(rt: HostRuntime) -> io::Result<()> {
    let heap = rt.alloc();
    // One byte more than a file can have, so that a longer input is refused and not cut off.
    let mut buffer = vec![in heap; 0u8; LONGEST_FILE + 1]?;
    let size = fill(&mut rt.stdin(), buffer.as_mut_slice())?;
    buffer.truncate(size);
    rt.print(report(heap, buffer.as_slice())?)
}
