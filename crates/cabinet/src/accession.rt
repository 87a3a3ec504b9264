//! A trace comes in.
ghost use Rattle.std.specs.Prelude.{◌≡◌, ◌+◌, ◌≤◌, length, Ok};
ghost use Rattle.trace.specs.Files.{Trace};
ghost use Rattle.trace.specs.Refusals.{answer};
ghost use Rattle.catalog.specs.Refusals.{told};
ghost use Rattle.cabinet.specs.Model.{accession, read};
ghost use Rattle.cabinet.specs.Promise.{Kept, RefusedLeaves};
ghost use Rattle.cabinet.specs.Calls.{lengths, WrongRefused};
ghost use Rattle.cabinet.specs.Searching.{Stored-at};

use crate::collection::Collection;
use crate::searching::search_through;
use catalog::refusal::Refusal;
use catalog::row::Totals;
use filters::filter::Filter;
use search::matches::Match;
use trace::file::{read_codes, read_samples};
use trace::sample::Sample;

impl<S: Sample, F: Filter> Collection<S, F> {
    /// Takes a trace file in, and answers its accession number. The file is read once to check it and a second time to store
    /// it, so that a refusal leaves the store as it was.
    pub fn accession(
        &mut self,
        file: &[u8],
        store: &mut [S],
        list: &mut [Match],
        codes: &mut [u16],
        marks: &mut [u8],
    ) -> Result<u32, Refusal>
        ensures kept { Kept S.kind F.rule F.reaches F.stands self.old store.old list.old (accession (lengths store.old list.old codes.old marks.old) file.now) (answer (λ n. n) told result) self.new store.new list.new }
        ensures same { RefusedLeaves result ((self.new ≡ self.old) × (store.new ≡ store.old) × (list.new ≡ list.old)) }
        ensures memory { WrongRefused self.old (lengths store.old list.old codes.old marks.old) result ((codes.new ≡ codes.old) × (marks.new ≡ marks.old)) }
    {
        self.check_memory(store, list, codes, marks)?;
        let header = read_codes::<S>(file, codes)?;
        let trace = &codes[..header.count as usize];
        // Only counted: no match is written, so the number is not asked for yet.
        let count = search_through::<S, F>(&self.filter, &self.question, trace, 0, marks, &mut [])?;
        let Totals { samples, pairs, .. } = self.catalog.all_totals();
        let number = self.catalog.push(header.machine, header.count, count)?;
        let listed = pairs + count.pairs as usize;
        // Not refused, since the same search was not when it only counted.
        let _ = search_through::<S, F>(
            &self.filter,
            &self.question,
            trace,
            number,
            marks,
            &mut list[pairs..listed],
        );
        store_trace::<S>(file, store, samples, header.count as usize);
        Ok(number)
    }
}

/// Writes the samples of a sound file, of which there are `count`, into the store from `at` on. The file was read before,
/// so this is not refused.
fn store_trace<S: Sample>(file: &[u8], store: &mut [S], at: usize, count: usize)
    requires { at + count ≤ length store.old }
    ensures { (t : Trace) → read S.kind file.now ≡ Ok t → length t.samples ≡ count → Stored-at S.kind.fields at t.samples store.old store.new }
{
    let end = at + count;
    let _ = read_samples::<S>(file, &mut store[at..end]);
}
