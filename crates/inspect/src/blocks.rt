//! The text of a whole trace, in blocks of samples.
ghost use Rattle.std.specs.Prelude.{◌+◌, ◌^◌, ◌<◌, map, length, Some};
ghost use Rattle.inspect.specs.AnyFile.{trace_of};
ghost use Rattle.inspect.specs.Labels.{labels};
ghost use Rattle.inspect.specs.Texts.{column, listed, block, trace_text};

use crate::any_kind::Traced;
use crate::shown::{Shown, field_names, title};
use std::fmt;

/// A block has at most this many samples, so that its lines stay short enough to read.
const PER_BLOCK: usize = 16;

/// The values of one field of some samples, each behind a blank.
#[derive(Clone, Copy)]
struct Column<'a, S> {
    samples: &'a [S],
    field: usize,
}

impl<S: Shown> fmt::Display for Column<'_, S> {
    ghost output = { λ c. Some (listed (column c.field (map S.kind.fields c.samples.now))) };

    fn fmt<W: fmt::Write>(&self, f: &mut fmt::Formatter<W>) -> fmt::Result {
        for sample in self.samples {
            write!(f, " {}", sample.value(self.field))?;
        }
        Ok(())
    }
}

/// Some samples, the first of which has this place in the trace.
#[derive(Drop)]
struct Block<'a, S> {
    first: usize,
    samples: &'a [S],
    ghost some: { 0 < length samples.now },
    ghost fits: { first + length samples.now < 2 ^ 64 },
}

impl<S: Shown> fmt::Display for Block<'_, S> {
    ghost output = { λ b. Some (block (labels S.KIND).names b.first (map S.kind.fields b.samples.now)) };

    fn fmt<W: fmt::Write>(&self, f: &mut fmt::Formatter<W>) -> fmt::Result {
        let first = self.first;
        let last = first + self.samples.len() - 1;
        writeln!(f, "samples {first} to {last}")?;
        for (field, name) in field_names(S::KIND).iter().enumerate() {
            let samples = self.samples;
            let column = Column { samples, field };
            writeln!(f, "  {name}{column}")?;
        }
        Ok(())
    }
}

/// A trace with how many numbers of its file are padded.
#[derive(Clone, Copy)]
pub struct Inspected<'a, S> {
    pub trace: &'a Traced<S>,
    pub padded: usize,
}

impl<S: Shown> fmt::Display for Inspected<'_, S> {
    ghost output = { λ x. Some (trace_text (labels S.KIND) (trace_of S.kind.fields x.trace.now) x.padded) };

    fn fmt<W: fmt::Write>(&self, f: &mut fmt::Formatter<W>) -> fmt::Result {
        let title = title(S::KIND);
        let number = S::KIND.number();
        let machine = self.trace.machine;
        writeln!(f, "{title} trace (kind {number}) of machine {machine}")?;
        let samples = self.trace.samples.as_slice();
        let count = samples.len();
        let padded = self.padded;
        writeln!(f, "samples {count}, padded numbers {padded}")?;
        for (k, part) in samples.chunks(PER_BLOCK).enumerate() {
            let first = PER_BLOCK * k;
            let block = Block {
                first,
                samples: part,
            };
            write!(f, "{block}")?;
        }
        Ok(())
    }
}
