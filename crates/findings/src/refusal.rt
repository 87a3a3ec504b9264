//! Why an input is refused.
ghost use Rattle.std.specs.Prelude.{◌≡◌};
ghost use Rattle.console.specs.declared.failure.Failure.TheVariants.{Refused};
ghost use Rattle.findings.specs.Refusals.{refusal_number};
ghost use Rattle.findings.specs.declared.refusal.Refusal.TheVariants.{Input, Call};

use catalog::refusal::Refusal as CallRefusal;
use console::failure;
use console::refusal::Refusal as InputRefusal;

/// Why an input was refused.
#[derive(Clone, Copy)]
pub enum Refusal {
    /// The input cannot be taken apart.
    Input(InputRefusal),
    /// The collection refused the question or a trace.
    Call(CallRefusal),
}

/// Why there is no answer.
pub type Failure = failure::Failure<Refusal>;

impl Refusal {
    /// The number of the refusal.
    pub fn number(self) -> u8
        ensures { result ≡ refusal_number self }
    {
        match self {
            Refusal::Input(refusal) => refusal.number(),
            Refusal::Call(refusal) => refusal.number(),
        }
    }
}

impl From<InputRefusal> for Refusal {
    ghost from_gives = { λ e r. r ≡ Input e };

    fn from(refusal: InputRefusal) -> Refusal {
        Refusal::Input(refusal)
    }
}

impl From<CallRefusal> for Refusal {
    ghost from_gives = { λ e r. r ≡ Call e };

    fn from(refusal: CallRefusal) -> Refusal {
        Refusal::Call(refusal)
    }
}

// In each program: one for every refusal would meet that for want of memory.
impl From<Refusal> for Failure {
    ghost from_gives = { λ e r. r ≡ Refused e };

    fn from(refusal: Refusal) -> Failure {
        Failure::Refused(refusal)
    }
}
