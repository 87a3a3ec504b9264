//! The starts of a query's tuples by their numbers, in chains.
ghost use Rattle.std.specs.Prelude.{◌≡◌, ℕ, ◌<◌, ◌≤◌, length, replicate, slice_index};
ghost use Rattle.filters.specs.Tuples.{tuple_number, starts};
ghost use Rattle.filters.specs.Chains.{Chained, place};

use crate::held::MOST_CODES;
use crate::number::{MODULUS, number_all};
use crate::shape::Shape;

/// For each number the last place that has it, and for each place the last one before it with its number.
// Arrays, and no map: a filter may not use the heap. One more than the place, and 0 for none: arrays of options are twice
// as long, and a question, which copies them, is then set in a third more time.
#[derive(Clone, Copy)]
pub struct Index {
    heads: [u16; MODULUS],
    links: [u16; MOST_CODES],
    ghost full: { length heads ≡ 1021 },
    ghost long: { length links ≡ 1024 },
}

impl Index {
    /// The index of no place.
    pub fn new() -> Self
        ensures { (result.heads ≡ replicate 1021 0) × (result.links ≡ replicate 1024 0) }
    {
        Index {
            heads: [0; MODULUS],
            links: [0; MOST_CODES],
        }
    }

    /// The index of the tuples of a shape.
    pub(crate) fn of(codes: &[u16], shape: Shape) -> Self
        requires { length codes.now ≤ 1024 }
        ensures { Chained (tuple_number shape.size shape.gap codes.now) (starts shape.size shape.gap (length codes.now)) result.heads result.links }
    {
        let mut numbers = [0u16; MOST_CODES];
        number_all(codes, shape, &mut numbers);
        chain(&numbers[..shape.starts(codes.len())])
    }

    /// The last place that has a number.
    pub(crate) fn last(&self, number: u16) -> Option<usize>
        requires { number < 1021 }
        ensures { result ≡ place (slice_index self.now.heads number) }
    {
        (self.heads[number as usize] as usize).checked_sub(1)
    }

    /// The last place before this one that has its number.
    pub(crate) fn previous(&self, at: usize) -> Option<usize>
        requires { at < 1024 }
        ensures { result ≡ place (slice_index self.now.links at) }
    {
        (self.links[at] as usize).checked_sub(1)
    }
}

/// The chains of places by their numbers.
fn chain(numbers: &[u16]) -> Index
    requires few { length numbers.now ≤ 1024 }
    requires small { (i : ℕ) → i < length numbers.now → slice_index numbers.now i < 1021 }
    ensures { Chained (λ i. slice_index numbers.now i) (length numbers.now) result.heads result.links }
{
    let mut heads = [0; MODULUS];
    let mut links = [0; MOST_CODES];
    // By place: a link is made of the head that an earlier place left.
    for (i, number) in numbers.iter().enumerate() {
        let head = *number as usize;
        links[i] = heads[head];
        heads[head] = i as u16 + 1;
    }
    Index { heads, links }
}
