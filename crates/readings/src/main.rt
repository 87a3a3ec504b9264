//! Reads trace files from the standard input, one to a line in hex, and prints how each is read.
#![tactic(auto)]

mod answer;
mod hex;
mod line;
mod reading;
mod show;
mod tally;

use crate::answer::answer;
use crate::show::Shown;
use crate::tally::Tally;
use std::io;
use std::io::{BufRead, BufReader};
use trace::file::MOST_SAMPLES;
use trace::pulse::Pulse;
use trace::sample::blank;
use trace::stroke::Stroke;

fn main(rt: HostRuntime) -> io::Result<()> {
    let heap = rt.alloc();
    let mut codes = vec![in heap; 0u16; MOST_SAMPLES]?;
    let mut pulses = vec![in heap; blank::<Pulse>(); MOST_SAMPLES]?;
    let mut strokes = vec![in heap; blank::<Stroke>(); MOST_SAMPLES]?;
    let mut tally = Tally::new();
    for line in BufReader::new(heap, rt.stdin())?.lines(heap) {
        let line = line?;
        let reading = answer(
            heap,
            line.as_bytes(),
            codes.as_mut_slice(),
            pulses.as_mut_slice(),
            strokes.as_mut_slice(),
        )?;
        tally.add(reading);
        let shown = Shown {
            reading,
            codes: codes.as_slice(),
        };
        println!(rt; "{shown}")?;
    }
    println!(rt; "{tally}")
}
