//! The parts of the input.
ghost use Rattle.std.specs.Prelude.{◌≡◌};
ghost use Rattle.console.specs.Refusals.{answer};
ghost use Rattle.probe.specs.Framing.{framed, framing, TakesApart};
ghost use Rattle.probe.specs.Refusals.{refusal_number};

use crate::refusal::Refusal;
use console::parts::Parts;

/// What the input asks: the length m of a window, how many of its places, k, need not agree, and the files.
#[derive(Clone, Copy)]
pub struct Frames<'a> {
    pub m: usize,
    pub k: usize,
    /// The query's trace file.
    pub query: &'a [u8],
    /// The trace's file.
    pub trace: &'a [u8],
}

/// The parts of an input, or the first refusal.
pub fn take_frames(input: &[u8]) -> Result<Frames<'_>, Refusal>
    ensures is { answer framed refusal_number result ≡ framing input.now }
    ensures apart { TakesApart input.now (answer framed refusal_number result) }
{
    split(input)
}

fn split(input: &[u8]) -> Result<Frames<'_>, Refusal>
    ensures { answer framed refusal_number result ≡ framing input.now }
{
    let mut parts = Parts { rest: input };
    let m = parts.number()?;
    let k = parts.number()?;
    let query = parts.file()?;
    let trace = parts.file()?;
    if !parts.rest.is_empty() {
        return Err(Refusal::BytesLeftOver);
    }
    Ok(Frames { m, k, query, trace })
}
