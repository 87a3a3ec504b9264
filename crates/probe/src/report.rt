//! All that is printed of an input.
ghost use Rattle.std.specs.Prelude.{◌≡◌, IfOk, string_bytes};
ghost use Rattle.probe.specs.Answers.{shown};
ghost use Rattle.probe.specs.Reports.{shown_text, report_text};

use crate::answer::Answer;
use crate::refusal::Failure;
use crate::task::search_input;
use console::table::{Summary, Table, refusal_line};
use std::alloc::{AllocError, Global};

/// The text of an answer: the heading, a line for each pair, and the summary.
fn answer_text(heap: Global, answer: &Answer) -> Result<String, AllocError>
    ensures is { IfOk result (λ s. string_bytes s ≡ shown_text (shown answer.now)) }
{
    let summary = Summary {
        traces: 1,
        samples: answer.samples,
        pairs: answer.found.pairs,
        places: answer.found.places,
        reach: answer.reach,
    };
    let matches = answer.matches.as_slice();
    Table { matches, summary }.to_string(heap)
}

/// What an input's search finds, or why it is refused.
pub fn report(heap: Global, input: &[u8]) -> Result<String, AllocError>
    ensures is { IfOk result (λ s. string_bytes s ≡ report_text input.now) }
{
    match search_input(heap, input) {
        Ok(answer) => answer_text(heap, &answer),
        Err(Failure::Refused(refusal)) => refusal_line(heap, refusal.number()),
        Err(Failure::NoMemory(error)) => Err(error),
    }
}
