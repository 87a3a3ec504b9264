//! Trace files of any kind.
ghost use Rattle.std.specs.Prelude.{◌≡◌};
ghost use Rattle.trace.specs.Refusals.{told, told_fault};
ghost use Rattle.trace.specs.Files.{trace_file};
ghost use Rattle.console.specs.Refusals.{Answers};
ghost use Rattle.inspect.specs.AnyFile.{trace_of, any_of, any_file, ToldInFile};

use console::failure::Failure;
use std::alloc::{AllocError, Global};
use trace::file::{MOST_SAMPLES, read_samples};
use trace::pulse::Pulse;
use trace::refusal::{Cause, Fault, Refusal};
use trace::sample::{Sample, blank};
use trace::stroke::Stroke;

/// The most bytes that a number takes.
const NUMBER_BYTES: usize = 3;

/// The numbers before the samples: the kind, the machine and the count.
const HEADER_NUMBERS: usize = 3;

/// The most bytes that a trace file has: one of strokes, which have the most fields.
pub const LONGEST_FILE: usize = NUMBER_BYTES * (HEADER_NUMBERS + MOST_SAMPLES * Stroke::FIELDS);

/// A trace of the kind S.
#[derive(Drop)]
pub struct Traced<S> {
    pub machine: u16,
    pub samples: Vec<S>,
}

/// A trace of some kind.
#[derive(Drop)]
pub enum AnyTrace {
    Pulses(Traced<Pulse>),
    Strokes(Traced<Stroke>),
}

/// The fault that a reader with room for every trace tells.
fn fault_of(refusal: Refusal) -> Fault
    requires { ToldInFile (told refusal) }
    ensures is { told_fault result ≡ told refusal }
{
    match refusal {
        Refusal::File(fault) => fault,
        Refusal::TooShort | Refusal::OutOfRange => unreachable(),
    }
}

/// Reads a trace file of the kind S: its trace, or its first fault.
fn read_kind<S: Sample + Clone>(heap: Global, file: &[u8]) -> Result<Traced<S>, Failure<Fault>>
    ensures is { Answers (trace_of S.kind.fields) told_fault result (trace_file S.kind.number S.kind.tops file.now) }
{
    let mut samples = vec![in heap; blank::<S>(); MOST_SAMPLES]?;
    match read_samples::<S>(file, samples.as_mut_slice()) {
        Ok(header) => {
            samples.truncate(header.count as usize);
            Ok(Traced {
                machine: header.machine,
                samples,
            })
        }
        Err(refusal) => Err(Failure::Refused(fault_of(refusal))),
    }
}

/// Reads a trace file of any kind: as pulses and, where that is refused as another kind, as strokes.
pub fn read_any(heap: Global, file: &[u8]) -> Result<AnyTrace, Failure<Fault>>
    ensures is { Answers any_of told_fault result (any_file file.now) }
{
    match read_kind::<Pulse>(heap, file) {
        Ok(pulses) => Ok(AnyTrace::Pulses(pulses)),
        Err(Failure::Refused(fault)) if fault.cause == Cause::OtherKind => {
            Ok(AnyTrace::Strokes(read_kind(heap, file)?))
        }
        Err(failure) => Err(failure),
    }
}
