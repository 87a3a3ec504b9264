//! A trace goes.
ghost use Rattle.std.specs.Prelude.{◌≡◌};
ghost use Rattle.trace.specs.Refusals.{answer};
ghost use Rattle.catalog.specs.Refusals.{told};
ghost use Rattle.cabinet.specs.Model.{withdraw};
ghost use Rattle.cabinet.specs.Promise.{Kept, RefusedLeaves};
ghost use Rattle.cabinet.specs.Calls.{lengths, WrongRefused};

use crate::collection::Collection;
use catalog::gap::{blank_out, close_gap};
use catalog::refusal::Refusal;
use filters::filter::Filter;
use search::matches::Match;
use trace::sample::Sample;

impl<S: Sample, F: Filter> Collection<S, F> {
    /// Takes a trace out that is not lent: its samples and its matches go, and the gaps that they leave close. The buffers
    /// for codes and marks are only looked at for their lengths.
    pub fn withdraw(
        &mut self,
        number: u32,
        store: &mut [S],
        list: &mut [Match],
        codes: &[u16],
        marks: &[u8],
    ) -> Result<(), Refusal>
        ensures kept { Kept S.kind F.rule F.reaches F.stands self.old store.old list.old (withdraw (lengths store.old list.old codes.now marks.now) number) (answer (λ _. 0) told result) self.new store.new list.new }
        ensures same { RefusedLeaves result ((self.new ≡ self.old) × (store.new ≡ store.old) × (list.new ≡ list.old)) }
        ensures memory { WrongRefused self.old (lengths store.old list.old codes.now marks.now) result (Unit {0}) }
    {
        self.check_memory(store, list, codes, marks)?;
        let (at, row) = self.catalog.row(number)?;
        if row.loans > 0 {
            return Err(Refusal::OnLoan);
        }
        let before = self.catalog.totals(at);
        let all = self.catalog.all_totals();
        close_gap(store, before.samples, row.length as usize, all.samples);
        close_gap(list, before.pairs, row.pairs as usize, all.pairs);
        let end = all.pairs;
        let left = end - row.pairs as usize;
        blank_out(&mut list[left..end], Match::NONE);
        self.catalog.remove(at);
        Ok(())
    }
}
