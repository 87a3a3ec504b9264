//! The parts of an input: numbers, and files behind their lengths.
ghost use Rattle.std.specs.Prelude.{◌≡◌, ◌<◌, length, OnOk, OnErr};
ghost use Rattle.console.specs.Parts.{taken, front_number, front_file};

use crate::refusal::Refusal;
use trace::number::{Found, number};

/// The most bytes of an input that a program takes. Two pulse files of the most samples, with each number in the three
/// bytes that it has at most, take fewer.
pub const LONGEST_INPUT: usize = 32_768;

/// The bytes of an input from which parts are still to be taken, each from the front.
#[derive(Clone, Copy, PartialEq, Debug)]
pub struct Parts<'a> {
    pub rest: &'a [u8],
}

impl<'a> Parts<'a> {
    /// Takes a number; a refusal leaves the bytes as they were.
    pub fn number(&mut self) -> Result<usize, Refusal>
        ensures is { taken (λ n. n) result self.new.rest.now ≡ front_number self.old.rest.now }
        ensures shorter { OnOk result (length self.new.rest.now < length self.old.rest.now) }
        ensures kept { OnErr result (self.new ≡ self.old) }
    {
        let Found { value, size } = number(self.rest)?;
        self.rest = &self.rest[size..];
        Ok(value as usize)
    }

    /// Takes a file, which stands behind its length; a refusal leaves the bytes as they were.
    pub fn file(&mut self) -> Result<&'a [u8], Refusal>
        ensures is { taken (λ file. file.now) result self.new.rest.now ≡ front_file self.old.rest.now }
        ensures shorter { OnOk result (length self.new.rest.now < length self.old.rest.now) }
        ensures kept { OnErr result (self.new ≡ self.old) }
    {
        let mut behind = *self;
        let size = behind.number()?;
        let (file, rest) = behind
            .rest
            .split_at_checked(size)
            .ok_or(Refusal::FileCutOff)?;
        self.rest = rest;
        Ok(file)
    }
}
