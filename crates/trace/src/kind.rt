//! The kinds of samples, as trace files name them.
ghost use Rattle.std.specs.Prelude.{◌≡◌};
ghost use Rattle.trace.specs.KindNames.{kind_number, Named};

/// A kind of sample, numbered as a trace file names it.
#[derive(Clone, Copy, PartialEq, Debug)]
pub enum KindName {
    Pulse = 1,
    Stroke = 2,
}

impl KindName {
    /// The number of the kind, 1 or 2.
    // A method, and no `From`: a bare number does not say what it numbers.
    pub fn number(self) -> u8
        ensures { result ≡ kind_number self }
    {
        self as u8
    }
}

/// A number that no kind has.
#[derive(Clone, Copy, PartialEq, Debug)]
pub struct UnknownKind(pub u8);

impl TryFrom<u8> for KindName {
    type Error = UnknownKind;

    ghost try_from_gives = { Named };

    fn try_from(number: u8) -> Result<KindName, UnknownKind> {
        match number {
            1 => Ok(KindName::Pulse),
            2 => Ok(KindName::Stroke),
            _ => Err(UnknownKind(number)),
        }
    }
}
