//! The cases that are tried.
ghost use Rattle.filters.specs.Asked.{asked};
ghost use Rattle.std.specs.Prelude.{◌≡◌, IfOk};
ghost use Rattle.trials.specs.Cases.{Small};

use crate::planting::plant;
use crate::refused::RefusedQuestion;
use draws::Draws;
use filters::question::Question;
use std::alloc::{AllocError, Global};

/// The most codes of a query: few, so that a case is tried in no time, and enough that windows begin all over it.
const LONGEST_QUERY: usize = 24;

/// The most codes of a trace. It is mostly longer than the query, and now and then shorter.
const LONGEST_TRACE: usize = 40;

/// The most places of a window. Longer ones would hardly match, and k, which is below m, stays below its own limit.
const LONGEST_WINDOW: usize = 12;

/// Every so many cases, one has a stretch of its query planted into its trace.
const PLANTED: u32 = 2;

/// Every so many cases, one has a question to be refused.
const REFUSED: u32 = 20;

/// A query and a trace, a question that no filter refuses, and now and then one that every filter refuses.
#[derive(Drop)]
pub struct Case {
    /// Counted from 1; also the trace's accession number.
    pub number: u32,
    pub query: Vec<u16>,
    pub trace: Vec<u16>,
    pub m: usize,
    pub k: usize,
    pub refused: Option<RefusedQuestion>,
}

impl Case {
    /// Draws the case of a number, with codes of an alphabet.
    // The alphabet beside the draws, and not of them: one run of draws goes through all alphabets.
    pub fn draw(
        heap: Global,
        draws: &mut Draws,
        number: u32,
        alphabet: u16,
    ) -> Result<Case, AllocError>
        ensures { IfOk result Small }
    {
        let q = draws.between(1, LONGEST_QUERY);
        let n = draws.between(1, LONGEST_TRACE);
        let query = draws.codes(heap, q, alphabet)?;
        let mut trace = draws.codes(heap, n, alphabet)?;
        if number % PLANTED == 0 {
            plant(draws, alphabet, query.as_slice(), trace.as_mut_slice());
        }
        let m = draws.between(1, q.min(LONGEST_WINDOW));
        let k = draws.up_to(m - 1);
        let refused = (number % REFUSED == 0).then(|| RefusedQuestion::draw(draws, q, m));
        Ok(Case {
            number,
            query,
            trace,
            m,
            k,
            refused,
        })
    }

    /// The question that no filter refuses.
    pub fn question(&self) -> Question<'_>
        ensures { asked result ≡ record { codes = self.now.query.items; m = self.now.m; k = self.now.k } }
    {
        Question {
            codes: self.query.as_slice(),
            m: self.m,
            k: self.k,
        }
    }
}
