//! Why an input is refused.
ghost use Rattle.std.specs.Prelude.{◌≡◌};
ghost use Rattle.console.specs.declared.failure.Failure.TheVariants.{Refused};
ghost use Rattle.probe.specs.Refusals.{refusal_number};
ghost use Rattle.probe.specs.declared.refusal.Refusal.TheVariants.{Input};

use console::failure;
use console::refusal::Refusal as InputRefusal;
use filters::refusal::Refusal as FilterRefusal;
use search::refusal::Refusal as ScanRefusal;
use trace::refusal::Refusal as FileRefusal;

/// Why an input was refused.
#[derive(Clone, Copy)]
pub enum Refusal {
    /// The input cannot be taken apart.
    Input(InputRefusal),
    /// Bytes are left over behind the trace's file.
    BytesLeftOver,
    /// One of the files was refused.
    File(FileRefusal),
    /// The filter refused the question.
    Filter(FilterRefusal),
    /// The scan was refused.
    Scan(ScanRefusal),
}

/// Why there is no answer.
pub type Failure = failure::Failure<Refusal>;

impl Refusal {
    /// The number of the refusal.
    pub fn number(self) -> u8
        ensures { result ≡ refusal_number self }
    {
        match self {
            Refusal::Input(refusal) => refusal.number(),
            Refusal::BytesLeftOver => 8,
            Refusal::File(refusal) => refusal.number(),
            Refusal::Filter(refusal) => refusal.number(),
            Refusal::Scan(refusal) => refusal.number(),
        }
    }
}

impl From<InputRefusal> for Refusal {
    ghost from_gives = { λ e r. r ≡ Input e };

    fn from(refusal: InputRefusal) -> Refusal {
        Refusal::Input(refusal)
    }
}

// In each program: one for every refusal would meet that for want of memory.
impl From<Refusal> for Failure {
    ghost from_gives = { λ e r. r ≡ Refused e };

    fn from(refusal: Refusal) -> Failure {
        Failure::Refused(refusal)
    }
}
