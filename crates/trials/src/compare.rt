//! What one filter answers in one case, compared with what is expected.
ghost use Rattle.std.specs.Prelude.{◌≡◌, if◌then◌else◌, Ok, Err};

use crate::cases::Case;
use crate::difference::{Difference, Fault};
use crate::passed::count_passed;
use crate::refused::RefusedQuestion;
use filters::filter::Filter;
use filters::question::Question;
use search::matches::{Found, Match};
use search::scan::scan;
use std::alloc::Global;
use trace::pulse::Pulse;

/// Sets the question of a case and compares all that the filter then answers, up to the first difference.
pub fn compare<F: Filter>(
    heap: Global,
    filter: &mut F,
    case: &Case,
    expected: &[Match],
) -> Result<(), Fault> {
    let set = filter.set(case.question());
    expect(set == Ok(()), Difference::Set)?;
    let counted = scan_case(heap, filter, case, &mut [])?;
    expect(counted.pairs == expected.len(), Difference::Count)?;
    compare_list(heap, filter, case, expected, counted)?;
    compare_places(filter, case, counted)?;
    if let Some(question) = case.refused {
        refuse(filter, case, question)?;
        let again = scan_case(heap, filter, case, &mut [])?;
        expect(again == counted, Difference::Changed)?;
    }
    Ok(())
}

/// Compares the matches, listed into just as much room as they were counted to need.
fn compare_list<F: Filter>(
    heap: Global,
    filter: &F,
    case: &Case,
    expected: &[Match],
    counted: Found,
) -> Result<(), Fault> {
    // No match of a case is Match::NONE, since cases are numbered from 1.
    let mut list = vec![in heap; Match::NONE; counted.pairs]?;
    let listed = scan_case(heap, filter, case, list.as_mut_slice())?;
    expect(listed == counted, Difference::Count)?;
    expect(list.as_slice() == expected, Difference::List)?;
    Ok(())
}

/// Compares the places with those that are passed one by one, and with the matches found by them.
fn compare_places<F: Filter>(filter: &F, case: &Case, counted: Found) -> Result<(), Difference> {
    let Found { pairs, places } = counted;
    expect(places == count_passed(filter, case), Difference::Places)?;
    let most = filter.reach().saturating_add(1).saturating_mul(places);
    expect(pairs <= most, Difference::Bound)
}

/// Asks a question that is to be refused.
fn refuse<F: Filter>(
    filter: &mut F,
    case: &Case,
    question: RefusedQuestion,
) -> Result<(), Difference> {
    let len = filter.len();
    let reach = filter.reach();
    let answer = filter.set(Question {
        codes: case.query.as_slice(),
        m: question.m,
        k: question.k,
    });
    expect(answer == Err(question.refusal), Difference::Refusal)?;
    expect(
        filter.len() == len && filter.reach() == reach,
        Difference::Changed,
    )
}

/// Scans the trace of a case.
fn scan_case<F: Filter>(
    heap: Global,
    filter: &F,
    case: &Case,
    out: &mut [Match],
) -> Result<Found, Fault> {
    let mut marks = vec![in heap; 0u8; case.query.len()]?;
    let trace = case.trace.as_slice();
    let found = scan::<Pulse, F>(
        filter,
        case.question(),
        trace,
        case.number,
        marks.as_mut_slice(),
        out,
    )
    .map_err(|_| Difference::Scan)?;
    Ok(found)
}

/// Goes on where a fact holds.
fn expect(holds: bool, otherwise: Difference) -> Result<(), Difference>
    ensures { result ≡ (if holds then Ok tt else Err otherwise) }
{
    if holds { Ok(()) } else { Err(otherwise) }
}
