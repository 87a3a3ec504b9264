//! Slips, against which traces are lent.
ghost use Rattle.std.specs.Prelude.{◌≡◌, ◌<◌};

/// The receipt for one loan of a trace. It is given back to the collection or written off, and never just let fall: its
/// `drop` asks for a mark above 65,535, and no collection has one: an opening takes 1 to 65,535, a refused one leaves 0.
pub struct Slip {
    mark: u32,
    number: u32,
}

impl Drop for Slip {
    fn drop(self)
        requires { 65535 < self.mark }
    {
        let Slip { mark: _, number: _ } = self;
    }
}

/// What a slip bore that was written off.
#[derive(Clone, Copy, PartialEq, Debug)]
pub struct WrittenOff {
    pub mark: u32,
    pub number: u32,
}

impl Slip {
    pub(crate) fn new(mark: u32, number: u32) -> Slip
        ensures { result ≡ record { mark = mark; number = number } }
    {
        Slip { mark, number }
    }

    /// The mark of the collection that lent the trace.
    pub fn mark(&self) -> u32
        ensures { result ≡ self.now.mark }
    {
        self.mark
    }

    /// The trace's accession number.
    pub fn number(&self) -> u32
        ensures { result ≡ self.now.number }
    {
        self.number
    }

    /// Ends the slip without a return: the loan stays counted.
    pub fn write_off(self) -> WrittenOff
        ensures { result ≡ record { mark = self.mark; number = self.number } }
    {
        let Slip { mark, number } = self;
        WrittenOff { mark, number }
    }
}
