//! A collection of pulses, with its memory.
ghost use Rattle.std.specs.Prelude.{◌≡◌, [], IfOk};
ghost use Rattle.findings.specs.Desks.{Keeps, Called, CameIn, ListedBy};
ghost use Rattle.findings.specs.Sessions.{asking, bringing};
ghost use Rattle.findings.specs.Texts.{summary_of};

use crate::refusal::{Failure, Refusal};
use cabinet::collection::Collection;
use cabinet::declined::Declined;
use cabinet::report::Report;
use catalog::refusal::Refusal as CallRefusal;
use console::parts::{LONGEST_INPUT, Parts};
use console::table::{Summary, Table};
use filters::filter::Filter;
use filters::held::MOST_CODES;
use search::matches::Match;
use std::alloc::{AllocError, Global};
use trace::file::MOST_SAMPLES;
use trace::pulse::Pulse;
use trace::sample::blank;

/// The mark of the one collection, which lends nothing.
const MARK: u32 = 1;
/// How many samples there is room for: as many as the longest input has bytes.
const STORE: usize = LONGEST_INPUT;
/// How many matches there is room for.
const LIST: usize = 2_048;

/// A report, as it is printed.
// A report is the collection's, and probe has none; a function, and no `From`, since both types are of other crates.
fn summary(report: Report) -> Summary
    ensures { result ≡ summary_of report }
{
    let Report {
        traces,
        samples,
        pairs,
        places,
        reach,
    } = report;
    Summary {
        traces,
        samples,
        pairs,
        places,
        reach,
    }
}

/// A collection, and the memory that its calls are brought.
#[derive(Drop)]
pub struct Desk<F> {
    collection: Collection<Pulse, F>,
    store: Vec<Pulse>,
    list: Vec<Match>,
    codes: Vec<u16>,
    marks: Vec<u8>,
}

impl<F: Filter> Desk<F> {
    /// Opens a collection that is searched through the filter.
    pub fn new(heap: Global, filter: F) -> Result<Desk<F>, AllocError>
        ensures { IfOk result (λ d. Keeps F.rule F.reaches F.stands [] d) }
    {
        let store = vec![in heap; blank::<Pulse>(); STORE]?;
        let mut list = vec![in heap; Match::NONE; LIST]?;
        let codes = vec![in heap; 0u16; MOST_SAMPLES]?;
        let marks = vec![in heap; 0u8; MOST_CODES]?;
        match Collection::open(filter, MARK, store.as_slice(), list.as_mut_slice()) {
            Ok(collection) => Ok(Desk {
                collection,
                store,
                list,
                codes,
                marks,
            }),
            // An opening takes this mark and these lengths.
            Err(
                Declined {
                    refusal: _,
                    back: _,
                },
            ) => unreachable(),
        }
    }

    /// Puts the question of a query file.
    pub fn ask(&mut self, file: &[u8], m: usize, k: usize) -> Result<(), CallRefusal>
        ensures { Called F.rule F.reaches F.stands self.old (asking (record { m = m; k = k; query = file.now })) result self.new }
    {
        self.collection.ask(
            file,
            m,
            k,
            self.store.as_slice(),
            self.list.as_mut_slice(),
            self.codes.as_mut_slice(),
            self.marks.as_mut_slice(),
        )
    }

    /// Takes a trace file in.
    pub fn bring(&mut self, file: &[u8]) -> Result<u32, CallRefusal>
        ensures { Called F.rule F.reaches F.stands self.old (bringing file.now) result self.new }
    {
        self.collection.accession(
            file,
            self.store.as_mut_slice(),
            self.list.as_mut_slice(),
            self.codes.as_mut_slice(),
            self.marks.as_mut_slice(),
        )
    }

    /// Takes all trace files in, each of which stands behind its length. A file's length is read right before the file
    /// comes in, so that the first refusal is told, whatever comes behind it.
    pub fn bring_all(&mut self, files: &[u8]) -> Result<(), Refusal>
        ensures { CameIn F.rule F.reaches F.stands self.old files.now result self.new }
    {
        let mut files = Parts { rest: files };
        while !files.rest.is_empty() {
            let file = files.file()?;
            self.bring(file)?;
        }
        Ok(())
    }

    /// The text of all matches and of the report that goes with them.
    pub fn listing(&self, heap: Global) -> Result<String, Failure>
        ensures { ListedBy F.rule F.reaches F.stands self.now result }
    {
        let listing = self
            .collection
            .listing(self.list.as_slice())
            .map_err(Refusal::Call)?;
        let table = Table {
            matches: listing.matches,
            summary: summary(listing.report),
        };
        Ok(table.to_string(heap)?)
    }
}
