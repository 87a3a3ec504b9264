//! The parts of the input.
ghost use Rattle.std.specs.Prelude.{◌≡◌};
ghost use Rattle.console.specs.Refusals.{answer};
ghost use Rattle.findings.specs.Framing.{asked_in, front_question, questioned, TakesApart};
ghost use Rattle.findings.specs.Refusals.{refusal_number};

use crate::refusal::Refusal;
use console::parts::{LONGEST_INPUT, Parts};
use console::refusal::Refusal as InputRefusal;

/// What the input asks: the length m of a window, how many of its places, k, need not agree, and the query's trace file.
#[derive(Clone, Copy)]
pub struct Asked<'a> {
    pub m: usize,
    pub k: usize,
    pub query: &'a [u8],
    /// The bytes of the traces.
    pub rest: &'a [u8],
}

/// What an input asks, or its first refusal before the traces.
pub fn take_question(input: &[u8]) -> Result<Asked<'_>, Refusal>
    ensures is { answer asked_in refusal_number result ≡ questioned input.now }
    ensures apart { TakesApart input.now (answer asked_in refusal_number result) }
{
    if input.len() > LONGEST_INPUT {
        return Err(Refusal::Input(InputRefusal::InputTooLong));
    }
    split(input)
}

fn split(input: &[u8]) -> Result<Asked<'_>, Refusal>
    ensures { answer asked_in refusal_number result ≡ front_question input.now }
{
    let mut parts = Parts { rest: input };
    let m = parts.number()?;
    let k = parts.number()?;
    let query = parts.file()?;
    Ok(Asked {
        m,
        k,
        query,
        rest: parts.rest,
    })
}
