//! The numbers of tuples: l codes, g apart, as digits to the base 640, modulo 1021.
ghost use Rattle.std.specs.Prelude.{◌≡◌, ◌+◌, ◌-◌, ◌*◌, ◌%◌, ◌<◌, ◌≤◌, length};
ghost use Rattle.filters.specs.Tuples.{tuple_number, numbering, starts, Numbered};

use crate::power::power;
use crate::refusal::Refusal;
use crate::shape::Shape;

/// Every kind has at most this many codes, so codes are digits to this base.
const BASE: u32 = 640;
/// Tuple numbers are kept below this prime, so that a table of heads by number stays small.
pub(crate) const MODULUS: usize = 1_021;

const PRIME: u32 = MODULUS as u32;

/// Writes the number of each tuple into the front of `out`, and answers how many there are.
pub fn tuple_numbers(codes: &[u16], l: usize, g: usize, out: &mut [u16]) -> Result<usize, Refusal>
    ensures answer { result ≡ numbering l g (length codes.now) (length out.old) }
    ensures written { elim result [ Ok _ ↦ Numbered l g codes.now out.old out.new | Err _ ↦ out.new ≡ out.old ] }
{
    let shape = Shape::new(l, g)?;
    let starts = shape.starts(codes.len());
    if codes.len() <= shape.span() || out.len() < starts {
        return Err(Refusal::NoTuples);
    }
    number_all(codes, shape, out);
    Ok(starts)
}

/// Writes the number of each tuple into the front of `out`, each from the number of the tuple a gap before it.
pub(crate) fn number_all(codes: &[u16], shape: Shape, out: &mut [u16])
    requires { starts shape.size shape.gap (length codes.now) ≤ length out.old }
    ensures { Numbered shape.size shape.gap codes.now out.old out.new }
{
    let gap = shape.gap;
    let span = shape.span();
    let top = power(shape.size - 1);
    // By index: each number is made from one written before it.
    for i in 0..shape.starts(codes.len()) {
        out[i] = if i < gap {
            number_at(&codes[i..], shape)
        } else {
            rolled(out[i - gap], codes[i - gap], top, codes[i + span])
        };
    }
}

/// The number of the tuple at the front.
pub(crate) fn number_at(codes: &[u16], shape: Shape) -> u16
    requires { (shape.size - 1) * shape.gap < length codes.now }
    ensures { (result ≡ tuple_number shape.size shape.gap codes.now 0) × (result < 1021) }
{
    let gap = shape.gap;
    // By index: `step_by` would go over every code between.
    (0..shape.size).fold(0, |number, x| followed(number, codes[x * gap]))
}

/// A number with a code behind it as one more digit.
fn followed(number: u16, code: u16) -> u16
    ensures { result ≡ (number * 640 + code) % 1021 }
{
    ((number as u32 * BASE + code as u32) % PRIME) as u16
}

/// The number of a tuple from the number of the one before it, which begins with `first`: that goes out, and `last` comes in.
fn rolled(number: u16, first: u16, power: u16, last: u16) -> u16
    requires { (number < 1021) × (power < 1021) }
    ensures { result ≡ ((number + 1021 - first * power % 1021) * 640 + last) % 1021 }
{
    let gone = first as u32 * power as u32 % PRIME;
    followed((number as u32 + PRIME - gone) as u16, last)
}
