//! The standing traces searched.
ghost use Rattle.std.specs.Prelude.{◌≡◌, ◌≤◌, ◌++◌, map, length, drop};
ghost use Rattle.filters.specs.Asking.{question_of};
ghost use Rattle.catalog.specs.Catalogs.{standing};
ghost use Rattle.cabinet.specs.Searching.{Searched, SearchedThrough, CountedAll};
ghost use Rattle.cabinet.specs.Shelf.{traces_of, row_of};
ghost use Rattle.cabinet.specs.Words.{all_matches, padded};

use crate::posed::Posed;
use catalog::catalog::{Catalog, MOST_TRACES};
use catalog::gap::blank_out;
use catalog::refusal::Refusal;
use catalog::row::Count;
use filters::filter::Filter;
use filters::held::Held;
use search::matches::Match;
use search::scan::scan;
use trace::sample::Sample;

/// Searches a trace through a filter, which may not stand for the question: counts its matches, and writes them to the back
/// of `out`.
pub(crate) fn search_through<S: Sample, F: Filter>(
    filter: &F,
    question: &Held,
    trace: &[u16],
    number: u32,
    marks: &mut [u8],
    out: &mut [Match],
) -> Result<Count, Refusal>
    requires { length trace.now ≤ 4096 }
    ensures { SearchedThrough S.kind.agree F.rule F.reaches (F.stands filter.now) (question_of question.now) trace.now (length marks.old) number out.old out.new result }
{
    match scan::<S, F>(filter, question.as_question(), trace, number, marks, out) {
        Ok(found) => Ok(Count {
            pairs: found.pairs as u32,
            places: found.places as u32,
        }),
        // Not reached where the filter stands for the question and the marks suffice, which a type cannot say here.
        Err(_) => Err(Refusal::OtherMemory),
    }
}

impl<F: Filter> Posed<F> {
    /// Searches a trace: counts its matches, and writes them to the back of `out`.
    fn search<S: Sample>(
        &self,
        trace: &[u16],
        number: u32,
        marks: &mut [u8],
        out: &mut [Match],
    ) -> Count
        requires short { length trace.now ≤ 4096 }
        requires room { 1024 ≤ length marks.old }
        ensures { Searched S.kind.agree F.rule (question_of self.now.question) trace.now number out.old out.new result }
    {
        match search_through::<S, F>(&self.filter, &self.question, trace, number, marks, out) {
            Ok(count) => count,
            Err(_) => unreachable(),
        }
    }
}

/// Writes the codes of samples into the front of `codes`.
fn load_codes<S: Sample>(samples: &[S], codes: &mut [u16])
    requires { length samples.now ≤ length codes.old }
    ensures { codes.new ≡ map S.kind.code (map S.kind.fields samples.now) ++ drop (length samples.now) codes.old }
{
    // By index: what a `zip` with `iter_mut` writes is not known after its loop.
    for (i, sample) in samples.iter().enumerate() {
        codes[i] = sample.code();
    }
}

/// Loads the codes of one trace and searches it: counts its matches, and writes them to the back of `out`.
// The two buffers go on as they were brought, apart from each other.
fn search_trace<S: Sample, F: Filter>(
    posed: &Posed<F>,
    samples: &[S],
    number: u32,
    codes: &mut [u16],
    marks: &mut [u8],
    out: &mut [Match],
) -> Count
    requires short { length samples.now ≤ 4096 }
    requires room { (4096 ≤ length codes.old) × (1024 ≤ length marks.old) }
    ensures { Searched S.kind.agree F.rule (question_of posed.now.question) (map S.kind.code (map S.kind.fields samples.now)) number out.old out.new result }
{
    load_codes(samples, codes);
    posed.search::<S>(&codes[..samples.len()], number, marks, out)
}

/// What the question finds in each standing trace; refused as soon as the list would be too short.
pub(crate) fn count_traces<S: Sample, F: Filter>(
    catalog: &Catalog,
    posed: &Posed<F>,
    store: &[S],
    codes: &mut [u16],
    marks: &mut [u8],
) -> Result<[Count; MOST_TRACES], Refusal>
    requires room { (4096 ≤ length codes.old) × (1024 ≤ length marks.old) }
    requires store { length store.now ≡ catalog.now.store }
    ensures { CountedAll S.kind F.rule (question_of posed.now.question) catalog.now.list (traces_of S.kind.fields (standing catalog.now) store.now) result }
{
    let mut counts = [Count::default(); MOST_TRACES];
    let mut at = 0;
    let mut pairs = 0;
    let rows = catalog.standing();
    for (i, row) in rows.iter().enumerate() {
        let end = at + row.length as usize;
        let count = search_trace(posed, &store[at..end], row.number, codes, marks, &mut []);
        pairs += count.pairs as usize;
        if pairs > catalog.list {
            return Err(Refusal::ListFull);
        }
        // By index: what a `zip` with `iter_mut` writes is not known after its loop.
        counts[i] = count;
        at = end;
    }
    Ok(counts)
}

/// Lists the matches of all standing traces, and zeros behind them.
pub(crate) fn list_traces<S: Sample, F: Filter>(
    catalog: &Catalog,
    posed: &Posed<F>,
    store: &[S],
    list: &mut [Match],
    codes: &mut [u16],
    marks: &mut [u8],
)
    requires room { (4096 ≤ length codes.old) × (1024 ≤ length marks.old) }
    requires store { length store.now ≡ catalog.now.store }
    requires list { length list.old ≡ catalog.now.list }
    requires counted { standing catalog.now ≡ map (row_of S.kind F.rule (question_of posed.now.question)) (traces_of S.kind.fields (standing catalog.now) store.now) }
    ensures { list.new ≡ padded (length list.old) (all_matches S.kind (question_of posed.now.question) (traces_of S.kind.fields (standing catalog.now) store.now)) }
{
    blank_out(list, Match::NONE);
    let mut at = 0;
    let mut first = 0;
    let rows = catalog.standing();
    for row in rows {
        let end = at + row.length as usize;
        let last = first + row.pairs as usize;
        search_trace(
            posed,
            &store[at..end],
            row.number,
            codes,
            marks,
            &mut list[first..last],
        );
        at = end;
        first = last;
    }
}
