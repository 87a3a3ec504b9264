//! All that is printed of an input.
ghost use Rattle.std.specs.Prelude.{◌≡◌, [], IfOk, string_bytes};
ghost use Rattle.console.specs.Filtering.{near_rule, near_reach};
ghost use Rattle.findings.specs.Examples.{Examples};
ghost use Rattle.findings.specs.Reports.{Tells, Says, report_text, session_text};
ghost use Rattle.findings.specs.Sessions.{session, Parts, Holds, calls, played, standing_after};

use crate::refusal::Failure;
use crate::session::hold;
use console::table::refusal_line;
use filters::continuous::Continuous;
use filters::filter::Filter;
use filters::gapped::Gapped;
use filters::near::Near;
use std::alloc::{AllocError, Global};

/// What an input's session finds through a filter, told in full: the list is whole.
fn tell<F: Filter>(heap: Global, filter: F, input: &[u8]) -> Result<String, Failure>
    ensures { Tells F.rule F.reaches result (session input.now) }
{
    let desk = hold(heap, filter, input)?;
    desk.listing(heap)
}

/// The line of a refusal.
fn failure_line(heap: Global, failure: Failure) -> Result<String, AllocError>
    ensures { IfOk result (λ s. Says failure (string_bytes s)) }
{
    match failure {
        Failure::Refused(refusal) => refusal_line(heap, refusal.number()),
        Failure::NoMemory(error) => Err(error),
    }
}

/// What an input's session finds, or why it is refused.
pub fn report(heap: Global, input: &[u8]) -> Result<String, AllocError>
    ensures is { IfOk result (λ s. string_bytes s ≡ report_text input.now) }
    ensures parts { IfOk result (λ s. (p : Parts) → Holds input.now p → string_bytes s ≡ session_text near_rule near_reach (played (calls p) (standing_after []))) }
    ensures examples { Examples }
{
    match tell(heap, Near::new(Continuous::new(), Gapped::new()), input) {
        Ok(text) => Ok(text),
        Err(failure) => failure_line(heap, failure),
    }
}
