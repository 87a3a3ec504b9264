//! What an input has the collection do.
ghost use Rattle.findings.specs.Desks.{Left, ByCalls};
ghost use Rattle.findings.specs.Sessions.{session, Parts, Holds, calls, Plays};

use crate::desk::Desk;
use crate::frame::take_question;
use crate::refusal::{Failure, Refusal};
use filters::filter::Filter;
use std::alloc::Global;

/// Puts the question of an input to a new collection, and brings the traces in.
pub fn hold<F: Filter>(heap: Global, filter: F, input: &[u8]) -> Result<Desk<F>, Failure>
    ensures is { Left F.rule F.reaches F.stands result (session input.now) }
    ensures plays { Plays input.now (session input.now) }
    ensures parts { (p : Parts) → Holds input.now p → ByCalls F.rule F.reaches F.stands (calls p) result }
{
    run(heap, filter, input)
}

fn run<F: Filter>(heap: Global, filter: F, input: &[u8]) -> Result<Desk<F>, Failure>
    ensures { Left F.rule F.reaches F.stands result (session input.now) }
{
    let asked = take_question(input)?;
    let mut desk = Desk::new(heap, filter)?;
    desk.ask(asked.query, asked.m, asked.k)
        .map_err(Refusal::Call)?;
    desk.bring_all(asked.rest)?;
    Ok(desk)
}
