//! Numbers in a trace file: one to three bytes, seven bits in each, the lowest first.
ghost use Rattle.std.specs.Prelude.{◌≡◌, ℕ, ◌+◌, ◌-◌, ◌*◌, ◌<◌, ◌≤◌, length, IfOk};
ghost use Rattle.trace.specs.Numbers.{number, number_told, ReadsBack};

use crate::refusal::Cause;

/// A byte of this or more says that another follows; the bits below it are its group.
pub const MORE: u8 = 0x80;

/// How many values a group has.
const GROUP: u32 = 0x80;

/// A number, and how many bytes it takes.
#[derive(Clone, Copy, PartialEq, Debug)]
pub struct Found {
    pub value: u32,
    pub size: usize,
}

/// The number at the front of some bytes. Padding with empty high groups is accepted.
pub fn number(bytes: &[u8]) -> Result<Found, Cause>
    ensures is { number_told result ≡ number 3 bytes.now }
    ensures reads_back { ReadsBack bytes.now result }
    ensures lies { IfOk result (λ f. (1 ≤ f.size) × (f.size ≤ length bytes.now)) }
{
    decode(bytes)
}

/// Apart from `number`, since that groups are read back follows from this in one step, whichever arm answers.
fn decode(bytes: &[u8]) -> Result<Found, Cause>
    ensures is { number_told result ≡ number 3 bytes.now }
    ensures lies { IfOk result (λ f. (1 ≤ f.size) × (f.size ≤ length bytes.now)) }
{
    match *bytes {
        [low, ..] if low < MORE => Ok(Found {
            value: low as u32,
            size: 1,
        }),
        [low, middle, ..] if middle < MORE => Ok(Found {
            value: above(low, middle as u32),
            size: 2,
        }),
        [low, middle, high, ..] if high < MORE => Ok(Found {
            value: above(low, above(middle, high as u32)),
            size: 3,
        }),
        [_, _, _, ..] => Err(Cause::NumberTooLong),
        _ => Err(Cause::EndsInsideNumber),
    }
}

/// The value of a byte's group and of the groups above it.
fn above(byte: u8, higher: u32) -> u32
    requires more { 128 ≤ byte }
    requires few { higher < 128 * 128 }
    ensures { result ≡ byte - 128 + 128 * higher }
{
    (byte - MORE) as u32 + GROUP * higher
}
