//! The search that an input asks for.
ghost use Rattle.console.specs.Filtering.{near_rule, near_reach};
ghost use Rattle.probe.specs.Answers.{Searched, input_task};
ghost use Rattle.probe.specs.Framing.{framed};
ghost use Rattle.probe.specs.Tasks.{task};

use crate::answer::{Answer, find};
use crate::codes::read_pulses;
use crate::frame::{Frames, take_frames};
use crate::refusal::{Failure, Refusal};
use console::parts::LONGEST_INPUT;
use console::refusal::Refusal as InputRefusal;
use filters::continuous::Continuous;
use filters::filter::Filter;
use filters::gapped::Gapped;
use filters::near::Near;
use filters::question::Question;
use std::alloc::Global;

/// Searches the query in the trace through a filter. The filter is set before the trace is read, so that what is wrong
/// with the question is told first.
pub fn search_files<F: Filter>(
    heap: Global,
    mut filter: F,
    frames: Frames<'_>,
) -> Result<Answer, Failure>
    ensures { Searched F.rule F.reaches result (task (framed frames.entry)) }
{
    let query = read_pulses(heap, frames.query)?;
    let question = Question {
        codes: query.as_slice(),
        m: frames.m,
        k: frames.k,
    };
    filter.set(question).map_err(Refusal::Filter)?;
    let trace = read_pulses(heap, frames.trace)?;
    find(heap, &filter, question, trace.as_slice())
}

/// Does the search that an input asks for.
pub fn search_input(heap: Global, input: &[u8]) -> Result<Answer, Failure>
    ensures { Searched near_rule near_reach result (input_task input.now) }
{
    if input.len() > LONGEST_INPUT {
        return Err(Refusal::Input(InputRefusal::InputTooLong).into());
    }
    let frames = take_frames(input)?;
    let filter = Near::new(Continuous::new(), Gapped::new());
    search_files(heap, filter, frames)
}
