//! How many files were read, and how many refused for each cause.
ghost use Rattle.std.specs.Prelude.{◌≡◌};
ghost use Rattle.readings.specs.Tallies.{caused, counted, more, none_yet, raised};

use crate::reading::{Reading, Unread};
use std::fmt;
use trace::refusal::{Cause, Refusal};

/// Counts of refusals by their cause.
#[derive(Clone, Copy)]
pub struct Causes {
    ends_inside_number: u32,
    number_too_long: u32,
    out_of_range: u32,
    other_kind: u32,
    bytes_left_over: u32,
}

impl Causes {
    fn add(&mut self, cause: Cause)
        ensures { self.new ≡ raised self.old cause }
    {
        match cause {
            Cause::EndsInsideNumber => add_one(&mut self.ends_inside_number),
            Cause::NumberTooLong => add_one(&mut self.number_too_long),
            Cause::OutOfRange => add_one(&mut self.out_of_range),
            Cause::OtherKind => add_one(&mut self.other_kind),
            Cause::BytesLeftOver => add_one(&mut self.bytes_left_over),
        }
    }
}

/// Counts one more, up to the largest number there is.
fn add_one(count: &mut u32)
    ensures { count.new ≡ more count.old }
{
    *count = count.saturating_add(1);
}

/// Counts of answers. They stop at the largest number there is.
#[derive(Clone, Copy)]
pub struct Tally {
    files: u32,
    read: u32,
    refused: u32,
    causes: Causes,
}

impl Tally {
    pub fn new() -> Tally
        ensures { result ≡ none_yet }
    {
        let causes = Causes {
            ends_inside_number: 0,
            number_too_long: 0,
            out_of_range: 0,
            other_kind: 0,
            bytes_left_over: 0,
        };
        Tally {
            files: 0,
            read: 0,
            refused: 0,
            causes,
        }
    }

    /// Counts an answer.
    pub fn add(&mut self, reading: Reading)
        ensures { self.new ≡ counted self.old reading }
    {
        add_one(&mut self.files);
        match reading {
            Ok(_) => add_one(&mut self.read),
            Err(Unread::Refused(refusal)) => {
                add_one(&mut self.refused);
                self.add_cause(refusal);
            }
            Err(Unread::Differ | Unread::Malformed) => {}
        }
    }

    /// Counts the cause of a refusal, which only one for want of room has not.
    fn add_cause(&mut self, refusal: Refusal)
        ensures { self.new ≡ caused self.old refusal }
    {
        match refusal {
            Refusal::File(fault) => self.causes.add(fault.cause),
            Refusal::OutOfRange => self.causes.add(Cause::OutOfRange),
            Refusal::TooShort => {}
        }
    }
}

impl fmt::Display for Tally {
    ghost use Rattle.std.specs.Prelude.{Some};
    ghost use Rattle.readings.specs.Texts.{tally_text};

    ghost output = { λ tally. Some (tally_text tally) };

    fn fmt<W: fmt::Write>(&self, f: &mut fmt::Formatter<W>) -> fmt::Result {
        let Tally {
            files,
            read,
            refused,
            causes,
        } = *self;
        write!(
            f,
            "files {files}, read {read}, refused {refused} ({causes})"
        )
    }
}

impl fmt::Display for Causes {
    ghost use Rattle.std.specs.Prelude.{Some};
    ghost use Rattle.readings.specs.Texts.{causes_text};

    ghost output = { λ causes. Some (causes_text causes) };

    fn fmt<W: fmt::Write>(&self, f: &mut fmt::Formatter<W>) -> fmt::Result {
        let Causes {
            ends_inside_number,
            number_too_long,
            out_of_range,
            other_kind,
            bytes_left_over,
        } = *self;
        write!(f, "4: {ends_inside_number}, 5: {number_too_long}, ")?;
        write!(
            f,
            "6: {out_of_range}, 7: {other_kind}, 8: {bytes_left_over}"
        )
    }
}
