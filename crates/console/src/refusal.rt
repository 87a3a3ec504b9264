//! Why an input cannot be taken apart.
ghost use Rattle.std.specs.Prelude.{◌≡◌};
ghost use Rattle.console.specs.Refusals.{refusal_number};
ghost use Rattle.console.specs.declared.refusal.Refusal.TheVariants.{Number};

use trace::refusal::Cause;

/// Why an input cannot be taken apart.
#[derive(Clone, Copy, PartialEq, Debug)]
pub enum Refusal {
    /// The input has more bytes than a program takes.
    InputTooLong,
    /// A number outside of the files is not there: m, k, or the length of a file.
    Number(Cause),
    /// A length goes past the end of the input.
    FileCutOff,
}

impl Refusal {
    /// The number of the refusal, 3 to 8.
    pub fn number(self) -> u8
        ensures { result ≡ refusal_number self }
    {
        match self {
            Refusal::InputTooLong => 3,
            Refusal::Number(cause) => cause.number(),
            Refusal::FileCutOff => 4,
        }
    }
}

impl From<Cause> for Refusal {
    ghost from_gives = { λ cause r. r ≡ Number cause };

    fn from(cause: Cause) -> Refusal {
        Refusal::Number(cause)
    }
}
