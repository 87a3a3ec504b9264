//! What is done with the catalogue.
ghost use Rattle.std.specs.Prelude.{◌≡◌, ℕ, suc, ◌+◌, ◌*◌, ◌<◌, ◌≤◌, List, [], ◌∷◌, ◌++◌, length, take, Some, None, Ok, Err, slice_index_or, slice_set};
ghost use Rattle.std.specs.List.{remove};
ghost use Rattle.catalog.specs.Rows.{blank, found_at, totals_of, with_loans, recounted, pairs_of_counts};
ghost use Rattle.catalog.specs.Catalogs.{standing, RowUnder, SameSizes, sized, Sized, admitted, Admitted, Recounted};

use crate::catalog::{Catalog, MOST_TRACES};
use crate::gap::close_gap;
use crate::refusal::Refusal;
use crate::row::{Count, Row, Totals};
use trace::file::MOST_SAMPLES;

/// The longest store of samples.
const LONGEST_STORE: usize = 65_535;
/// The longest list of matches.
const LONGEST_LIST: usize = 16_384;
/// The last accession number.
const LAST_NUMBER: u32 = 65_535;

impl Catalog {
    /// A catalogue without room, in which nothing can stand.
    pub fn closed() -> Catalog
        ensures { (standing result ≡ []) × (result.given ≡ 0) × (result.store ≡ 0) × (result.list ≡ 0) }
    {
        Catalog {
            store: 0,
            list: 0,
            given: 0,
            rows: [Row::BLANK; MOST_TRACES],
            used: 0,
        }
    }

    /// An empty catalogue for a store and a list of these lengths.
    pub fn new(store: usize, list: usize) -> Result<Catalog, Refusal>
        ensures { Sized store list result }
    {
        if store == 0 || store > LONGEST_STORE || list == 0 || list > LONGEST_LIST {
            return Err(Refusal::BadMemory);
        }
        // Written out again: a struct with ghost fields takes no `..`.
        Ok(Catalog {
            store,
            list,
            given: 0,
            rows: [Row::BLANK; MOST_TRACES],
            used: 0,
        })
    }

    /// The rows in use.
    pub fn standing(&self) -> &[Row]
        ensures { result.now ≡ standing self.now }
    {
        &self.rows[..self.used]
    }

    /// Which row has a number.
    pub fn find(&self, number: u32) -> Option<usize>
        ensures is { result ≡ found_at number (standing self.now) }
        ensures inside { elim result [ Some i ↦ i < self.now.used | None ↦ Unit {0} ] }
    {
        self.standing().iter().position(|row| row.number == number)
    }

    /// The row that has a number, behind its place.
    pub fn row(&self, number: u32) -> Result<(usize, Row), Refusal>
        ensures { RowUnder self.now number result }
    {
        let at = self.find(number).ok_or(Refusal::NoTrace)?;
        Ok((at, self.rows[at]))
    }

    /// What the first n rows add up to; all of them, where there are fewer.
    pub fn totals(&self, n: usize) -> Totals
        ensures is { result ≡ totals_of (take n (standing self.now)) }
        ensures fits { (result.samples ≤ self.now.store) × (result.pairs ≤ self.now.list) }
    {
        let mut totals = Totals::default();
        for row in &self.rows[..n.min(self.used)] {
            totals.samples += row.length as usize;
            totals.pairs += row.pairs as usize;
            totals.places += row.places as usize;
        }
        totals
    }

    /// What all rows add up to.
    pub fn all_totals(&self) -> Totals
        ensures is { result ≡ totals_of (standing self.now) }
        ensures fits { (result.samples ≤ self.now.store) × (result.pairs ≤ self.now.list) }
    {
        self.totals(self.used)
    }

    /// Counts this many loans in a row; where there is no such row, nothing changes.
    pub fn set_loans(&mut self, at: usize, loans: u8)
        ensures rows { standing self.new ≡ slice_set (standing self.old) at (with_loans loans (slice_index_or (standing self.old) at blank)) }
        ensures same { SameSizes self.old self.new }
    {
        if at < self.used {
            self.rows[at].loans = loans;
        }
    }

    /// A row for a new trace under the next number; refused, nothing changes.
    pub fn push(&mut self, machine: u16, length: u16, count: Count) -> Result<u32, Refusal>
        ensures { Admitted self.old machine length count self.new result }
    {
        if length as usize > MOST_SAMPLES {
            return Err(Refusal::OtherMemory);
        }
        if self.used == MOST_TRACES {
            return Err(Refusal::TooManyTraces);
        }
        if self.given >= LAST_NUMBER {
            return Err(Refusal::NumbersSpent);
        }
        let totals = self.all_totals();
        if totals.samples + length as usize > self.store {
            return Err(Refusal::StoreFull);
        }
        if totals.pairs + count.pairs as usize > self.list {
            return Err(Refusal::ListFull);
        }
        let number = self.given + 1;
        self.rows[self.used] = Row {
            number,
            machine,
            length,
            loans: 0,
            pairs: count.pairs,
            places: count.places,
        };
        self.used += 1;
        self.given = number;
        Ok(number)
    }

    /// Takes a row out, and closes the gap; where there is no such row, nothing changes.
    pub fn remove(&mut self, at: usize)
        ensures rows { standing self.new ≡ remove (standing self.old) at }
        ensures same { SameSizes self.old self.new }
    {
        if at < self.used {
            close_gap(&mut self.rows, at, 1, self.used);
            self.used -= 1;
        }
    }

    /// Gives each row its new count; refused where there are fewer counts than rows, or their pairs exceed the list,
    /// and then nothing changes.
    pub fn recount(&mut self, counts: &[Count]) -> Result<(), Refusal>
        ensures { Recounted self.old counts.now self.new result }
    {
        let used = self.used;
        if counts.len() < used {
            return Err(Refusal::OtherMemory);
        }
        if pairs_counted(&counts[..used]) > self.list {
            return Err(Refusal::ListFull);
        }
        give_counts(&mut self.rows, &counts[..used]);
        Ok(())
    }
}

/// The pairs of some counts, no more of them than there are rows.
fn pairs_counted(counts: &[Count]) -> usize
    requires { length counts.now ≤ 256 }
    ensures { result ≡ pairs_of_counts counts.now }
{
    counts.iter().map(|count| count.pairs as usize).sum()
}

/// Gives the first rows their new counts.
fn give_counts(rows: &mut [Row], counts: &[Count])
    requires { length counts.now ≤ length rows.old }
    ensures { rows.new ≡ recounted rows.old counts.now }
{
    // By index: what a `zip` with `iter_mut` writes is not known after its loop.
    for (at, count) in counts.iter().enumerate() {
        let row = rows[at];
        rows[at] = Row {
            pairs: count.pairs,
            places: count.places,
            ..row
        };
    }
}
