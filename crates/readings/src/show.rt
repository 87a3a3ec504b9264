//! How an answer is printed.
ghost use Rattle.std.specs.Prelude.{◌≡◌, Some};
ghost use Rattle.trace.specs.Refusals.{told};
ghost use Rattle.readings.specs.Readings.{plain};
ghost use Rattle.readings.specs.Texts.{unread_text};

use crate::reading::{Reading, Unread};
use std::fmt;
use trace::refusal::Refusal;

/// An answer, and the codes at whose front those of a trace stand.
#[derive(Drop)]
pub struct Shown<'a> {
    pub reading: Reading,
    pub codes: &'a [u16],
}

impl fmt::Display for Shown<'_> {
    fn fmt<W: fmt::Write>(&self, f: &mut fmt::Formatter<W>) -> fmt::Result {
        match self.reading {
            Ok(header) => {
                let machine = header.machine;
                let count = header.count;
                write!(f, "ok {machine} {count}")?;
                for code in self.codes.iter().take(usize::from(count)) {
                    write!(f, " {code}")?;
                }
                Ok(())
            }
            Err(unread) => write!(f, "{unread}"),
        }
    }
}

impl fmt::Display for Unread {
    ghost output = { λ unread. Some (unread_text unread) };

    fn fmt<W: fmt::Write>(&self, f: &mut fmt::Formatter<W>) -> fmt::Result {
        match self {
            Unread::Refused(refusal) => {
                let (number, place, field) = numbers(*refusal);
                write!(f, "refused {number} {place} {field}")
            }
            Unread::Differ => f.write_str("differ"),
            Unread::Malformed => f.write_str("malformed"),
        }
    }
}

/// A refusal by its numbers: its own, the place and the field. One that is no file's has neither place nor field, and
/// 0 stands for them.
fn numbers(refusal: Refusal) -> (u8, usize, u8)
    ensures { result ≡ plain (told refusal) }
{
    let number = refusal.number();
    match refusal {
        Refusal::File(fault) => (number, fault.place, fault.field.number()),
        Refusal::TooShort | Refusal::OutOfRange => (number, 0, 0),
    }
}
