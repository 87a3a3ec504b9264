//! The worked examples of match lists, run through the scan.
use filters::continuous::Continuous;
use filters::examples::changed_codes;
use filters::filter::Filter;
use filters::gapped::Gapped;
use filters::near::Near;
use filters::question::Question;
use search::examples::four_fives;
use search::matches::{Found, Match};
use search::refusal::Refusal;
use search::scan::scan;
use std::test::Fail;
use trace::pulse::Pulse;

/// A match on the trace with the accession number 1.
fn at(trace: u16, query: u16, mismatches: u16) -> Match {
    Match {
        accession: 1,
        trace,
        query,
        mismatches,
    }
}

#[test]
fn finds_a_changed_window(rt: HostRuntime) -> Result<(), Fail> {
    let question = Question {
        codes: &[1, 2, 3, 4, 5, 6],
        m: 6,
        k: 1,
    };
    let mut filter = Near::new(Continuous::new(), Gapped::new());
    filter.set(question)?;
    let mut out = [Match::NONE; 1];
    let found = scan::<Pulse, _>(
        &filter,
        question,
        &changed_codes(),
        1,
        &mut [0u8; 6],
        &mut out,
    );
    assert_eq!(rt;
        found,
        Ok(Found {
            pairs: 1,
            places: 1,
        })
    );
    assert_eq!(rt; out[0], at(1, 0, 1));
    Ok(())
}

#[test]
fn lists_all_pairs_of_equal_codes(rt: HostRuntime) -> Result<(), Fail> {
    let question = Question {
        codes: &[5, 5, 5],
        m: 2,
        k: 0,
    };
    let mut filter = Continuous::new();
    filter.set(question)?;
    let mut out = [Match::NONE; 6];
    let found = scan::<Pulse, _>(&filter, question, &four_fives(), 1, &mut [0u8; 3], &mut out);
    assert_eq!(rt;
        found,
        Ok(Found {
            pairs: 6,
            places: 6,
        })
    );
    assert_eq!(rt; out[0], at(0, 0, 0));
    assert_eq!(rt; out[1], at(0, 1, 0));
    assert_eq!(rt; out[2], at(1, 0, 0));
    assert_eq!(rt; out[5], at(2, 1, 0));
    Ok(())
}

#[test]
fn refuses_what_does_not_fit(rt: HostRuntime) -> Result<(), Fail> {
    let question = Question {
        codes: &[5, 5, 5],
        m: 2,
        k: 0,
    };
    let mut filter = Gapped::new();
    let mut marks = [0u8; 2];
    let trace = four_fives();
    assert_eq!(rt;
        scan::<Pulse, _>(&filter, question, &trace, 1, &mut marks, &mut []),
        Err(Refusal::OtherQuery)
    );
    filter.set(question)?;
    assert_eq!(rt;
        scan::<Pulse, _>(&filter, question, &trace, 1, &mut marks, &mut []),
        Err(Refusal::MarksTooShort)
    );
    assert_eq!(rt;
        scan::<Pulse, _>(&filter, question, &[0u16; 4097], 1, &mut marks, &mut []),
        Err(Refusal::TraceTooLong)
    );
    Ok(())
}
