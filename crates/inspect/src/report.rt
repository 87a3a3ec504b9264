//! All that is printed of an input.
ghost use Rattle.std.specs.Prelude.{◌≡◌, IfOk, string_bytes};
ghost use Rattle.inspect.specs.AnyFile.{any_of};
ghost use Rattle.inspect.specs.Reports.{any_text, report_text};

use crate::any_kind::{AnyTrace, LONGEST_FILE, read_any};
use crate::blocks::Inspected;
use crate::padding::padded;
use crate::words::{refusal_text, too_long};
use console::failure::Failure;
use std::alloc::{AllocError, Global};

/// The text of a trace of any kind, in whose file this many numbers are padded.
fn any_text(heap: Global, trace: &AnyTrace, padded: usize) -> Result<String, AllocError>
    ensures is { IfOk result (λ s. string_bytes s ≡ any_text (any_of trace.now) padded) }
{
    match trace {
        AnyTrace::Pulses(trace) => Inspected { trace, padded }.to_string(heap),
        AnyTrace::Strokes(trace) => Inspected { trace, padded }.to_string(heap),
    }
}

/// What an input holds, or why it is refused.
pub fn report(heap: Global, input: &[u8]) -> Result<String, AllocError>
    ensures is { IfOk result (λ s. string_bytes s ≡ report_text input.now) }
{
    if input.len() > LONGEST_FILE {
        return too_long(heap);
    }
    match read_any(heap, input) {
        Ok(trace) => any_text(heap, &trace, padded(input)),
        Err(Failure::Refused(fault)) => refusal_text(heap, fault),
        Err(Failure::NoMemory(error)) => Err(error),
    }
}
