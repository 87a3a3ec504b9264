//! The worked examples put to a collection, and each call on small cases.
use cabinet::collection::Collection;
use cabinet::declined::Declined;
use cabinet::examples::three_fives;
use cabinet::report::Report;
use cabinet::slip::Slip;
use catalog::refusal::Refusal;
use filters::continuous::Continuous;
use filters::filter::Filter;
use filters::gapped::Gapped;
use filters::held::MOST_CODES;
use filters::near::Near;
use filters::pass_all::PassAll;
use search::matches::Match;
use std::test::Fail;
use trace::file::MOST_SAMPLES;
use trace::pulse::Pulse;
use trace::sample::{Sample, blank};

/// Pulses 1 to 6.
const QUERY: [u8; 9] = [1, 7, 6, 1, 2, 3, 4, 5, 6];
/// The query with its third pulse changed and one more at either end.
const CHANGED: [u8; 11] = [1, 8, 8, 9, 1, 2, 7, 4, 5, 6, 9];
/// The query again, with its count and its first pulse padded.
const PADDED: [u8; 13] = [1, 7, 0x86, 0x80, 0, 0x81, 0x80, 0, 2, 3, 4, 5, 6];
/// Four equal pulses.
const FOUR_FIVES: [u8; 7] = [1, 1, 4, 5, 5, 5, 5];

fn at(accession: u32, trace: u16, query: u16, mismatches: u16) -> Match {
    Match {
        accession,
        trace,
        query,
        mismatches,
    }
}

fn opened<F: Filter>(
    filter: F,
    mark: u32,
    store: &[Pulse],
    list: &mut [Match],
) -> Result<Collection<Pulse, F>, Refusal> {
    Collection::open(filter, mark, store, list).map_err(|Declined { refusal, back: _ }| refusal)
}

/// Puts a question. The buffers are this function's own, and it promises nothing, so that a test that makes many calls stays
/// cheap to prove.
fn put<F: Filter>(
    c: &mut Collection<Pulse, F>,
    file: &[u8],
    m: usize,
    k: usize,
    store: &[Pulse],
    list: &mut [Match],
) -> Result<(), Refusal> {
    c.ask(
        file,
        m,
        k,
        store,
        list,
        &mut [0u16; MOST_SAMPLES],
        &mut [0u8; MOST_CODES],
    )
}

/// Takes a trace in.
fn bring<F: Filter>(
    c: &mut Collection<Pulse, F>,
    file: &[u8],
    store: &mut [Pulse],
    list: &mut [Match],
) -> Result<u32, Refusal> {
    c.accession(
        file,
        store,
        list,
        &mut [0u16; MOST_SAMPLES],
        &mut [0u8; MOST_CODES],
    )
}

/// Takes a trace out.
fn take_out<F: Filter>(
    c: &mut Collection<Pulse, F>,
    number: u32,
    store: &mut [Pulse],
    list: &mut [Match],
) -> Result<(), Refusal> {
    c.withdraw(
        number,
        store,
        list,
        &[0u16; MOST_SAMPLES],
        &[0u8; MOST_CODES],
    )
}

/// Gives a slip back; where that is refused the slip is written off.
fn given_back<F: Filter>(collection: &mut Collection<Pulse, F>, slip: Slip) -> Result<(), Refusal> {
    match collection.take_back(slip) {
        Ok(()) => Ok(()),
        Err(Declined { refusal, back }) => {
            back.write_off();
            Err(refusal)
        }
    }
}

#[test]
fn finds_a_changed_window(rt: HostRuntime) -> Result<(), Fail> {
    let mut store = [blank::<Pulse>(); 8];
    let mut list = [Match::NONE; 2];
    let filter = Near::new(Continuous::new(), Gapped::new());
    let mut c = opened(filter, 1, &store, &mut list)?;
    put(&mut c, &QUERY, 6, 1, &store, &mut list)?;
    assert_eq!(rt; bring(&mut c, &CHANGED, &mut store, &mut list), Ok(1));
    assert_eq!(rt; list[0], at(1, 1, 0, 1));
    assert_eq!(rt; list[1], Match::NONE);
    assert_eq!(rt;
        c.report(),
        Report {
            traces: 1,
            samples: 8,
            pairs: 1,
            places: 1,
            reach: 3,
        }
    );
    Ok(())
}

#[test]
fn lists_six_pairs_of_fives(rt: HostRuntime) -> Result<(), Fail> {
    let mut store = [blank::<Pulse>(); 4];
    let mut list = [Match::NONE; 6];
    let mut c = opened(Continuous::new(), 1, &store, &mut list)?;
    bring(&mut c, &FOUR_FIVES, &mut store, &mut list)?;
    put(&mut c, &three_fives(), 2, 0, &store, &mut list)?;
    assert_eq!(rt; list[0], at(1, 0, 0, 0));
    assert_eq!(rt; list[1], at(1, 0, 1, 0));
    assert_eq!(rt; list[2], at(1, 1, 0, 0));
    assert_eq!(rt; list[5], at(1, 2, 1, 0));
    Ok(())
}

#[test]
fn refuses_a_question_with_more_pairs_than_room(rt: HostRuntime) -> Result<(), Fail> {
    let mut store = [blank::<Pulse>(); 4];
    let mut list = [Match::NONE; 5];
    let mut c = opened(Continuous::new(), 1, &store, &mut list)?;
    bring(&mut c, &FOUR_FIVES, &mut store, &mut list)?;
    assert_eq!(rt;
        put(&mut c, &three_fives(), 2, 0, &store, &mut list),
        Err(Refusal::ListFull)
    );
    assert_eq!(rt; list[0], Match::NONE);
    assert_eq!(rt; c.report().pairs, 0);
    Ok(())
}

#[test]
fn padding_makes_no_difference(rt: HostRuntime) -> Result<(), Fail> {
    let mut store = [blank::<Pulse>(); 12];
    let mut list = [Match::NONE; 4];
    let mut c = opened(PassAll::new(), 1, &store, &mut list)?;
    put(&mut c, &QUERY, 6, 0, &store, &mut list)?;
    bring(&mut c, &QUERY, &mut store, &mut list)?;
    bring(&mut c, &PADDED, &mut store, &mut list)?;
    assert_eq!(rt; list[0], at(1, 0, 0, 0));
    assert_eq!(rt; list[1], at(2, 0, 0, 0));
    assert_eq!(rt; c.report().pairs, 2);
    Ok(())
}

#[test]
fn withdrawal_closes_the_gaps(rt: HostRuntime) -> Result<(), Fail> {
    let mut store = [blank::<Pulse>(); 14];
    let mut list = [Match::NONE; 4];
    let mut c = opened(PassAll::new(), 1, &store, &mut list)?;
    put(&mut c, &QUERY, 6, 1, &store, &mut list)?;
    bring(&mut c, &CHANGED, &mut store, &mut list)?;
    bring(&mut c, &QUERY, &mut store, &mut list)?;
    take_out(&mut c, 1, &mut store, &mut list)?;
    assert_eq!(rt; list[0], at(2, 0, 0, 0));
    assert_eq!(rt; list[1], Match::NONE);
    assert_eq!(rt; store[0].code(), 1);
    assert_eq!(rt; c.report().samples, 6);
    assert_eq!(rt;
        take_out(&mut c, 1, &mut store, &mut list),
        Err(Refusal::NoTrace)
    );
    Ok(())
}

#[test]
fn lends_and_takes_back(rt: HostRuntime) -> Result<(), Fail> {
    let mut store = [blank::<Pulse>(); 6];
    let mut list = [Match::NONE; 1];
    let mut other = opened(PassAll::new(), 2, &store, &mut list)?;
    let mut c = opened(PassAll::new(), 1, &store, &mut list)?;
    bring(&mut c, &QUERY, &mut store, &mut list)?;
    let slip = c.lend(1)?;
    let withdrawal = take_out(&mut c, 1, &mut store, &mut list);
    let elsewhere = given_back(&mut other, slip);
    let second = c.lend(1)?;
    let returned = given_back(&mut c, second);
    assert_eq!(rt; withdrawal, Err(Refusal::OnLoan));
    assert_eq!(rt; elsewhere, Err(Refusal::OtherMark));
    assert_eq!(rt; returned, Ok(()));
    assert_eq!(rt; c.row(1)?.loans, 1);
    Ok(())
}

#[test]
fn refuses_other_memory(rt: HostRuntime) -> Result<(), Fail> {
    let mut store = [blank::<Pulse>(); 6];
    let mut list = [Match::NONE; 1];
    let mut codes = [0u16; MOST_SAMPLES];
    let mut marks = [0u8; 1023];
    let mut c = opened(PassAll::new(), 1, &store, &mut list)?;
    assert_eq!(rt;
        c.accession(&QUERY, &mut store, &mut list, &mut codes, &mut marks),
        Err(Refusal::OtherMemory)
    );
    assert_eq!(rt; c.match_at(0, &[]), Err(Refusal::OtherMemory));
    assert_eq!(rt; c.match_at(0, &list), Err(Refusal::NoMatch));
    assert_eq!(rt; c.row(1), Err(Refusal::NoTrace));
    Ok(())
}
