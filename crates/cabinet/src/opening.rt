//! Opening a collection.
ghost use Rattle.std.specs.Prelude.{◌≡◌};
ghost use Rattle.filters.specs.Filters.{StandsFor, none};
ghost use Rattle.cabinet.specs.Calls.{Opened, Closed};

use crate::collection::Collection;
use crate::declined::Declined;
use catalog::catalog::Catalog;
use catalog::gap::blank_out;
use catalog::refusal::Refusal;
use filters::filter::Filter;
use filters::held::Held;
use search::matches::Match;
use std::marker::PhantomData;
use trace::sample::Sample;

/// The largest mark.
const LAST_MARK: u32 = 65_535;

impl<S: Sample, F: Filter> Collection<S, F> {
    /// Opens a collection for this store and list, which no question and no trace has yet: the filter is cleared and the
    /// list filled with zeros. Refused for the mark first, then for the lengths; a collection without room is then given
    /// back, and the list stays.
    pub fn open(
        mut filter: F,
        mark: u32,
        store: &[S],
        list: &mut [Match],
    ) -> Result<Collection<S, F>, Declined<Collection<S, F>>>
        ensures { Opened S.kind F.rule F.reaches F.stands mark store.now list.old result list.new }
    {
        filter.clear();
        if mark == 0 || mark > LAST_MARK {
            return Err(Collection::closed(filter, Refusal::BadMark));
        }
        match Catalog::new(store.len(), list.len()) {
            Err(refusal) => Err(Collection::closed(filter, refusal)),
            Ok(catalog) => {
                blank_out(list, Match::NONE);
                Ok(Collection {
                    kind: PhantomData,
                    filter,
                    question: Held::new(),
                    mark,
                    catalog,
                })
            }
        }
    }

    /// A collection without room, and why there is no other.
    // Its mark is a number too, 0, and no option: a slip bears its collection's, and none bears 0.
    fn closed(filter: F, refusal: Refusal) -> Declined<Collection<S, F>>
        requires { StandsFor F.rule F.reaches (F.stands filter) none }
        ensures { (result.refusal ≡ refusal) × Closed S.kind F.rule F.reaches F.stands result.back }
    {
        Declined {
            refusal,
            back: Collection {
                kind: PhantomData,
                filter,
                question: Held::new(),
                mark: 0,
                catalog: Catalog::closed(),
            },
        }
    }
}
