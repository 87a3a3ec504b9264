//! The answer to a line.
ghost use Rattle.std.specs.Prelude.{◌≡◌, length, IfOk};
ghost use Rattle.readings.specs.Lines.{line_asks};
ghost use Rattle.readings.specs.Readings.{Answers};

use crate::line::parse;
use crate::reading::{Reading, Unread, read_both};
use std::alloc::{AllocError, Global};
use trace::kind::KindName;
use trace::pulse::Pulse;
use trace::stroke::Stroke;

/// Reads the file of a line as the kind that the line asks for, as codes and as samples. The codes of a trace then
/// stand at the front of `codes`.
// Three buffers, apart from each other: only those of the line's kind are lent on.
pub fn answer(
    heap: Global,
    line: &[u8],
    codes: &mut [u16],
    pulses: &mut [Pulse],
    strokes: &mut [Stroke],
) -> Result<Reading, AllocError>
    ensures { length codes.old ≡ length pulses.old → length codes.old ≡ length strokes.old → IfOk result (λ reading. Answers reading (line_asks line.now) (length codes.old) codes.new) }
{
    let Some(asked) = parse(heap, line)? else {
        return Ok(Err(Unread::Malformed));
    };
    let file = asked.file.as_slice();
    Ok(match asked.kind {
        KindName::Pulse => read_both::<Pulse>(file, codes, pulses),
        KindName::Stroke => read_both::<Stroke>(file, codes, strokes),
    })
}
