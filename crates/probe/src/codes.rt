//! The codes of a file.
ghost use Rattle.std.specs.Prelude.{◌≤◌, IfOk, vec_items, vec_len};
ghost use Rattle.console.specs.Refusals.{Answers};
ghost use Rattle.probe.specs.Refusals.{refusal_number};
ghost use Rattle.probe.specs.Tasks.{pulse_codes};

use crate::refusal::{Failure, Refusal};
use std::alloc::{AllocError, Global};
use trace::file::{MOST_SAMPLES, read_codes};
use trace::pulse::Pulse;

/// The codes of the pulses in a trace file.
pub fn read_pulses(heap: Global, file: &[u8]) -> Result<Vec<u16>, Failure>
    ensures is { Answers vec_items refusal_number result (pulse_codes file.now) }
    ensures few { IfOk result (λ codes. vec_len codes ≤ 4096) }
{
    let mut codes = vec![in heap; 0u16; MOST_SAMPLES]?;
    let header = read_codes::<Pulse>(file, codes.as_mut_slice()).map_err(Refusal::File)?;
    codes.truncate(header.count as usize);
    Ok(codes)
}
