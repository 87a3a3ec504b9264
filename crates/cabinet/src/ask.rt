//! A question is put.
ghost use Rattle.std.specs.Prelude.{◌≡◌};
ghost use Rattle.trace.specs.Refusals.{answer};
ghost use Rattle.catalog.specs.Refusals.{told};
ghost use Rattle.cabinet.specs.Model.{ask};
ghost use Rattle.cabinet.specs.Promise.{Kept, ListedAgain, RefusedLeaves};
ghost use Rattle.cabinet.specs.Calls.{lengths, WrongRefused};

use crate::collection::Collection;
use crate::posed::Posed;
use crate::searching::{count_traces, list_traces};
use catalog::refusal::Refusal;
use filters::filter::Filter;
use filters::question::Question;
use search::matches::Match;
use trace::file::read_codes;
use trace::sample::Sample;

impl<S: Sample, F: Filter> Collection<S, F> {
    /// Puts the question of a query file, with windows of m samples that may disagree in k. All is counted before anything
    /// changes, so that a list too short for the matches leaves the question before.
    pub fn ask(
        &mut self,
        file: &[u8],
        m: usize,
        k: usize,
        store: &[S],
        list: &mut [Match],
        codes: &mut [u16],
        marks: &mut [u8],
    ) -> Result<(), Refusal>
        ensures kept { Kept S.kind F.rule F.reaches F.stands self.old store.now list.old (ask (lengths store.now list.old codes.old marks.old) file.now m k) (answer (λ _. 0) told result) self.new store.now list.new }
        ensures again { ListedAgain S.kind F.rule F.reaches F.stands self.old store.now list.old file.now m k result self.new list.new }
        ensures same { RefusedLeaves result ((self.new ≡ self.old) × (list.new ≡ list.old)) }
        ensures memory { WrongRefused self.old (lengths store.now list.old codes.old marks.old) result ((codes.new ≡ codes.old) × (marks.new ≡ marks.old)) }
    {
        self.check_memory(store, list, codes, marks)?;
        let header = read_codes::<S>(file, codes)?;
        let question = Question {
            codes: &codes[..header.count as usize],
            m,
            k,
        };
        let posed = Posed::new(&self.filter, question)?;
        let counts = count_traces(&self.catalog, &posed, store, codes, marks)?;
        self.catalog.recount(&counts)?;
        list_traces(&self.catalog, &posed, store, list, codes, marks);
        self.filter = posed.filter;
        self.question = posed.question;
        Ok(())
    }
}
