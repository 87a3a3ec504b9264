//! Whether the memory brought to a call is the collection's.
ghost use Rattle.std.specs.Prelude.{◌≡◌, true, false};
ghost use Rattle.catalog.specs.declared.refusal.Refusal.TheVariants.{OtherMemory};
ghost use Rattle.cabinet.specs.Model.{wrong};
ghost use Rattle.cabinet.specs.Calls.{lengths};

use crate::collection::Collection;
use catalog::refusal::Refusal;
use filters::held::MOST_CODES;
use search::matches::Match;
use trace::file::MOST_SAMPLES;

// Four slices, and no struct of them: `ask` brings the store and `withdraw` the buffers by `&`, and a struct would ask
// for `&mut`.
impl<S, F> Collection<S, F> {
    /// Refuses store or list of another length than at the opening, and buffers that are too short: for the codes of any
    /// trace, and for a mark on each place of any query.
    pub(crate) fn check_memory(
        &self,
        store: &[S],
        list: &[Match],
        codes: &[u16],
        marks: &[u8],
    ) -> Result<(), Refusal>
        ensures { let other = wrong self.now.catalog.store self.now.catalog.list (lengths store.now list.now codes.now marks.now) in elim result [ Ok _ ↦ false ≡ other | Err e ↦ (e ≡ OtherMemory) × (true ≡ other) ] }
    {
        if store.len() != self.catalog.store
            || list.len() != self.catalog.list
            || codes.len() < MOST_SAMPLES
            || marks.len() < MOST_CODES
        {
            return Err(Refusal::OtherMemory);
        }
        Ok(())
    }
}
