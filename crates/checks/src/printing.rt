//! What the programs share, where it takes memory: draws and printed text.
use console::table::{Summary, Table, refusal_line};
use draws::Draws;
use search::matches::Match;
use std::test::Fail;

#[test]
fn draws_codes(rt: HostRuntime) -> Result<(), Fail> {
    let mut draws = Draws::new(1);
    let codes = draws.codes(rt.alloc(), 3, 2)?;
    assert_eq!(rt; codes.len(), 3);
    assert!(rt; codes.iter().all(|&code| code < 2));
    Ok(())
}

#[test]
fn prints_a_table(rt: HostRuntime) -> Result<(), Fail> {
    let summary = Summary {
        traces: 1,
        samples: 8,
        pairs: 1,
        places: 1,
        reach: 3,
    };
    let found = Match {
        accession: 1,
        trace: 1,
        query: 0,
        mismatches: 1,
    };
    let text = Table {
        matches: &[found],
        summary,
    }
    .to_string(rt.alloc())?;
    assert_eq!(rt;
        text.as_str(),
        "accession trace query mismatches\n1 1 0 1\ntraces 1 samples 8 pairs 1 places 1 reach 3\n"
    );
    Ok(())
}

#[test]
fn prints_a_refusal(rt: HostRuntime) -> Result<(), Fail> {
    assert_eq!(rt; refusal_line(rt.alloc(), 12)?.as_str(), "refused 12\n");
    Ok(())
}
