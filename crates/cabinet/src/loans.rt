//! Traces are lent, and come back.
ghost use Rattle.std.specs.Prelude.{◌≡◌, IfOk};
ghost use Rattle.trace.specs.Refusals.{answer};
ghost use Rattle.catalog.specs.Refusals.{told};
ghost use Rattle.cabinet.specs.Model.{lend, take_back};
ghost use Rattle.cabinet.specs.Promise.{KeptApart, RefusedLeaves};
ghost use Rattle.cabinet.specs.Calls.{answer_back, GivenBack, Lent};

use crate::collection::Collection;
use crate::declined::Declined;
use crate::slip::Slip;
use catalog::refusal::Refusal;
use catalog::row::Row;
use filters::filter::Filter;
use trace::sample::Sample;

/// The most loans of one trace.
const MOST_LOANS: u8 = u8::MAX;

impl<S: Sample, F: Filter> Collection<S, F> {
    /// Lends a trace against a slip.
    pub fn lend(&mut self, number: u32) -> Result<Slip, Refusal>
        ensures kept { KeptApart S.kind F.rule F.reaches F.stands self.old (lend number) (answer (λ s. s.number) told result) self.new }
        ensures slip { IfOk result (λ s. (s.mark ≡ self.old.mark) × (s.number ≡ number)) }
        ensures same { RefusedLeaves result (self.new ≡ self.old) }
    {
        let (at, row) = self.catalog.row(number)?;
        if row.loans == MOST_LOANS {
            return Err(Refusal::TooManyLoans);
        }
        self.catalog.set_loans(at, row.loans + 1);
        Ok(Slip::new(self.mark, number))
    }

    /// Takes a slip back, and counts its loan no longer. A refusal gives the slip back.
    pub fn take_back(&mut self, slip: Slip) -> Result<(), Declined<Slip>>
        ensures kept { KeptApart S.kind F.rule F.reaches F.stands self.old (take_back slip.mark slip.number) (answer_back slip.number result) self.new }
        ensures back { GivenBack slip result }
        ensures same { RefusedLeaves result (self.new ≡ self.old) }
    {
        match self.lent(&slip) {
            Ok((at, row)) => {
                self.catalog.set_loans(at, row.loans - 1);
                slip.write_off();
                Ok(())
            }
            Err(refusal) => Err(Declined {
                refusal,
                back: slip,
            }),
        }
    }

    /// The row of the trace that was lent against a slip, behind its place.
    fn lent(&self, slip: &Slip) -> Result<(usize, Row), Refusal>
        ensures { Lent S.kind F.rule F.reaches F.stands self.now slip.now result }
    {
        if slip.mark() != self.mark {
            return Err(Refusal::OtherMark);
        }
        let (at, row) = self.catalog.row(slip.number())?;
        if row.loans == 0 {
            return Err(Refusal::NoLoan);
        }
        Ok((at, row))
    }
}
