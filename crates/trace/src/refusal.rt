//! Why a call is refused, and the numbers that refusals have.
ghost use Rattle.std.specs.Prelude.{◌≡◌};
ghost use Rattle.trace.specs.Refusals.{cause_number, field_number, told};
ghost use Rattle.trace.specs.Told.{number_of};
ghost use Rattle.trace.specs.declared.refusal.Refusal.TheVariants.{File};

/// What is wrong in a trace file.
#[derive(Clone, Copy, PartialEq, Debug)]
pub enum Cause {
    /// The file ends inside a number.
    EndsInsideNumber = 4,
    /// The third byte of a number says that another follows.
    NumberTooLong = 5,
    /// A number is out of its field's range.
    OutOfRange = 6,
    /// The file is of another kind than the reader's.
    OtherKind = 7,
    /// Bytes are left over behind the last field.
    BytesLeftOver = 8,
}

impl Cause {
    /// The number of the cause, 4 to 8.
    // A method, and no `From`: a bare number does not say what it numbers.
    pub fn number(self) -> u8
        ensures { result ≡ cause_number self }
    {
        self as u8
    }
}

/// The part of a trace file that a fault lies in.
#[derive(Clone, Copy, PartialEq, Debug)]
pub enum Field {
    Kind = 0,
    Machine = 1,
    Count = 2,
    Sample = 3,
    /// Behind the last sample.
    End = 4,
}

impl Field {
    /// The number of the field, 0 to 4.
    // A method, and no `From`: a bare number does not say what it numbers.
    pub fn number(self) -> u8
        ensures { result ≡ field_number self }
    {
        self as u8
    }
}

/// The first fault of a trace file.
#[derive(Clone, Copy, PartialEq, Debug)]
pub struct Fault {
    pub cause: Cause,
    /// Where the faulty number begins, in bytes from the file's start; or where the bytes left over do.
    pub place: usize,
    pub field: Field,
}

/// The number of the refusal of a slice; the others have the numbers of their causes.
const TOO_SHORT: u8 = 3;

/// Why a call was refused.
#[derive(Clone, Copy, PartialEq, Debug)]
pub enum Refusal {
    /// A slice that was brought to the call is too short.
    TooShort,
    /// A number is above the largest value of its field, so that there is no such sample.
    OutOfRange,
    /// The trace file has a fault.
    File(Fault),
}

impl Refusal {
    /// The number of the refusal, 3 to 8.
    pub fn number(self) -> u8
        ensures { result ≡ number_of (told self) }
    {
        match self {
            Refusal::TooShort => TOO_SHORT,
            Refusal::OutOfRange => Cause::OutOfRange.number(),
            Refusal::File(fault) => fault.cause.number(),
        }
    }
}

impl From<Fault> for Refusal {
    ghost from_gives = { λ fault r. r ≡ File fault };

    fn from(fault: Fault) -> Refusal {
        Refusal::File(fault)
    }
}
