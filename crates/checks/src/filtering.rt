//! The worked examples of docs/MATCHING.md, run through the filters.
use filters::compare::count_mismatches;
use filters::continuous::Continuous;
use filters::examples::changed_codes;
use filters::filter::Filter;
use filters::gapped::Gapped;
use filters::near::Near;
use filters::number::tuple_numbers;
use filters::pass_all::PassAll;
use filters::question::Question;
use filters::refusal::Refusal;
use trace::pulse::Pulse;

/// The query of the examples.
const SIX: [u16; 6] = [1, 2, 3, 4, 5, 6];
/// A trace whose second code differs from the query's.
const SHIFTED: [u16; 6] = [1, 7, 3, 4, 5, 6];

/// A question of these codes.
fn question(codes: &[u16], m: usize, k: usize) -> Question<'_> {
    Question { codes, m, k }
}

/// The places that a filter passes on a trace, row by row.
fn places<F: Filter>(filter: &F, trace: &[u16]) -> Result<usize, Refusal> {
    rows(filter, trace, &mut [0u8; 1024])
}

fn rows<F: Filter>(filter: &F, trace: &[u16], marks: &mut [u8]) -> Result<usize, Refusal> {
    let mut total = 0usize;
    // By place: j is what a row is marked for.
    for j in 0..trace.len() {
        total = total.saturating_add(filter.mark_row(trace, j, marks)?);
    }
    Ok(total)
}

/// The places that a filter passes once it is set for windows of six codes with one mismatch.
fn places_for_six<F: Filter>(mut filter: F, trace: &[u16]) -> Result<usize, Refusal> {
    filter.set(question(&SIX, 6, 1))?;
    places(&filter, trace)
}

#[test]
fn numbers_tuples(rt: HostRuntime) {
    let mut out = [7u16; 3];
    assert_eq!(rt; tuple_numbers(&[3, 4], 2, 1, &mut out), Ok(1));
    assert!(rt; out[0] == 903 && out[1] == 7);
    assert_eq!(rt; tuple_numbers(&[1, 2, 3], 3, 1, &mut out), Ok(1));
    assert!(rt; out[0] == 441);
    assert_eq!(rt; tuple_numbers(&[1, 2, 3], 2, 1, &mut out), Ok(2));
    assert!(rt; out[1] == 262 && out[2] == 7);
    assert_eq!(rt;
        tuple_numbers(&[1, 2, 3], 2, 3, &mut out),
        Err(Refusal::NoTuples)
    );
}

#[test]
fn counts_mismatches(rt: HostRuntime) {
    let trace = changed_codes();
    assert_eq!(rt; count_mismatches::<Pulse>(&SIX, &trace, 0, 1, 6), Ok(1));
    assert_eq!(rt; count_mismatches::<Pulse>(&SIX, &trace, 0, 0, 6), Ok(6));
    assert_eq!(rt;
        count_mismatches::<Pulse>(&SIX, &trace, 0, 3, 6),
        Err(Refusal::NoWindow)
    );
}

#[test]
fn passes_the_places_of_a_changed_trace(rt: HostRuntime) {
    let trace = changed_codes();
    assert_eq!(rt; places_for_six(PassAll::new(), &trace), Ok(48));
    assert_eq!(rt; places_for_six(Continuous::new(), &trace), Ok(1));
    assert_eq!(rt; places_for_six(Gapped::new(), &trace), Ok(1));
    assert_eq!(rt;
        places_for_six(Near::new(Continuous::new(), Gapped::new()), &trace),
        Ok(1)
    );
}

#[test]
fn passes_the_places_of_a_shifted_trace(rt: HostRuntime) {
    assert_eq!(rt; places_for_six(Continuous::new(), &SHIFTED), Ok(2));
    assert_eq!(rt; places_for_six(Gapped::new(), &SHIFTED), Ok(1));
    assert_eq!(rt;
        places_for_six(Near::new(Continuous::new(), Gapped::new()), &SHIFTED),
        Ok(2)
    );
    let nested = Near::new(Near::new(Continuous::new(), Gapped::new()), PassAll::new());
    assert_eq!(rt; places_for_six(nested, &SHIFTED), Ok(2));
}

#[test]
fn passes_nothing_with_no_question(rt: HostRuntime) {
    let filter = Near::new(Continuous::new(), Gapped::new());
    assert_eq!(rt; places(&filter, &SHIFTED), Ok(0));
    assert!(rt; filter.len() == 0 && filter.reach() == 0);
}

#[test]
fn refuses_questions_in_order(rt: HostRuntime) {
    let long = [0u16; 1025];
    let mut filter = Continuous::new();
    assert_eq!(rt; filter.set(question(&SIX, 6, 1)), Ok(()));
    assert_eq!(rt;
        filter.set(question(&long, 0, 99)),
        Err(Refusal::QueryTooLong)
    );
    assert_eq!(rt; filter.set(question(&SIX, 7, 99)), Err(Refusal::BadLength));
    assert_eq!(rt;
        filter.set(question(&SIX, 6, 6)),
        Err(Refusal::BadMismatches)
    );
    assert!(rt; filter.len() == 6 && filter.reach() == 3);
    assert_eq!(rt; places(&filter, &SHIFTED), Ok(2));
}

#[test]
fn refuses_too_few_marks(rt: HostRuntime) {
    let mut filter = PassAll::new();
    assert_eq!(rt; filter.set(question(&SIX, 6, 1)), Ok(()));
    let mut marks = [3u8; 5];
    assert_eq!(rt;
        filter.mark_row(&SHIFTED, 0, &mut marks),
        Err(Refusal::MarksTooShort)
    );
    assert!(rt; marks[0] == 3 && marks[4] == 3);
}
