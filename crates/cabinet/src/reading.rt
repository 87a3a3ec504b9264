//! What a collection holds, read.
ghost use Rattle.std.specs.Prelude.{◌≡◌, ℕ, List, length, Ok, Err, ◌≢◌};
ghost use Rattle.search.specs.declared.matches.Match.{Match};
ghost use Rattle.catalog.specs.declared.refusal.Refusal.TheVariants.{OtherMemory};
ghost use Rattle.catalog.specs.Rows.{samples_in, pairs_in, places_in};
ghost use Rattle.catalog.specs.Catalogs.{standing};
ghost use Rattle.cabinet.specs.Model.{Opening, Call, after};
ghost use Rattle.cabinet.specs.Promise.{After};
ghost use Rattle.cabinet.specs.Reading.{Reads, RowsTold, MatchTold, report_of, Lists};

use crate::collection::Collection;
use crate::report::{Listing, Report, Stored};
use catalog::refusal::Refusal;
use catalog::row::Row;
use filters::filter::Filter;
use search::matches::Match;
use trace::sample::Sample;

impl<S: Sample, F: Filter> Collection<S, F> {
    /// A trace's own part of the store, and where it begins.
    pub fn read<'a>(&self, number: u32, store: &'a [S]) -> Result<Stored<'a, S>, Refusal>
        ensures memory { (length store.now ≢ self.now.catalog.store) → result ≡ Err OtherMemory }
        ensures read { (o : Opening) (h : List Call) (list : List Match) → After S.kind F.rule F.reaches F.stands o h self.now store.now list → Reads S.kind (after S.kind o h).traces store.now number result }
    {
        if store.len() != self.catalog.store {
            return Err(Refusal::OtherMemory);
        }
        let (at, row) = self.catalog.row(number)?;
        let place = self.catalog.totals(at).samples;
        let end = place + row.length as usize;
        Ok(Stored {
            place,
            samples: &store[place..end],
        })
    }

    /// The match at an index of the list.
    pub fn match_at(&self, index: usize, list: &[Match]) -> Result<Match, Refusal>
        ensures memory { (length list.now ≢ self.now.catalog.list) → result ≡ Err OtherMemory }
        ensures told { (o : Opening) (h : List Call) (store : List S) → After S.kind F.rule F.reaches F.stands o h self.now store list.now → MatchTold S.kind (after S.kind o h) index result }
    {
        if list.len() != self.catalog.list {
            return Err(Refusal::OtherMemory);
        }
        if index >= self.catalog.all_totals().pairs {
            return Err(Refusal::NoMatch);
        }
        Ok(list[index])
    }

    /// The row of a trace.
    pub fn row(&self, number: u32) -> Result<Row, Refusal>
        ensures { (o : Opening) (h : List Call) (store : List S) (list : List Match) → After S.kind F.rule F.reaches F.stands o h self.now store list → RowsTold S.kind F.rule (after S.kind o h) number result }
    {
        let (_, row) = self.catalog.row(number)?;
        Ok(row)
    }

    /// All rows added up, and the filter's reach.
    pub fn report(&self) -> Report
        ensures rows { result ≡ record { traces = self.now.catalog.used; samples = samples_in (standing self.now.catalog); pairs = pairs_in (standing self.now.catalog); places = places_in (standing self.now.catalog); reach = (F.stands self.now.filter).span } }
        ensures told { (o : Opening) (h : List Call) (store : List S) (list : List Match) → After S.kind F.rule F.reaches F.stands o h self.now store list → result ≡ report_of S.kind F.rule F.reaches (after S.kind o h) }
    {
        let totals = self.catalog.all_totals();
        Report {
            traces: self.catalog.used,
            samples: totals.samples,
            pairs: totals.pairs,
            places: totals.places,
            reach: self.filter.reach(),
        }
    }

    /// The matches in the list, with the report that goes with them.
    pub fn listing<'a>(&self, list: &'a [Match]) -> Result<Listing<'a>, Refusal>
        ensures memory { (length list.now ≢ self.now.catalog.list) → result ≡ Err OtherMemory }
        ensures whole { (o : Opening) (h : List Call) (store : List S) → After S.kind F.rule F.reaches F.stands o h self.now store list.now → Lists S.kind F.rule F.reaches (after S.kind o h) result }
    {
        if list.len() != self.catalog.list {
            return Err(Refusal::OtherMemory);
        }
        let report = self.report();
        let pairs = report.pairs;
        Ok(Listing {
            matches: &list[..pairs],
            report,
        })
    }
}
