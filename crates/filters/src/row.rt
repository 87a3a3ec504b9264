//! One row of places: which places of the query have the tuple that a trace has at j.
ghost use Rattle.std.specs.Prelude.{◌≡◌, ℕ, ◌-◌, ◌*◌, ◌<◌, ◌≤◌, length, slice_index};
ghost use Rattle.filters.specs.Filters.{Marked};
ghost use Rattle.filters.specs.Tuples.{tuple_number, starts, same_tuple};
ghost use Rattle.filters.specs.Chains.{Chained};

use crate::index::Index;
use crate::number::number_at;
use crate::shape::Shape;

/// Marks the places of the query that have the tuple of the trace at j, and answers how many they are.
// Index, codes and shape as three: with the shape that a filter holds beside them, a row of neighbours took half as long
// again.
pub(crate) fn mark_row(
    index: &Index,
    codes: &[u16],
    shape: Shape,
    trace: &[u16],
    j: usize,
    marks: &mut [u8],
) -> usize
    requires few { length codes.now ≤ 1024 }
    requires room { length codes.now ≤ length marks.old }
    requires chained { Chained (tuple_number shape.size shape.gap codes.now) (starts shape.size shape.gap (length codes.now)) index.now.heads index.now.links }
    ensures { Marked (λ i. same_tuple shape.size shape.gap codes.now trace.now i j) (length codes.now) marks.old marks.new result }
{
    marks[..codes.len()].fill(0);
    match shape.tuple_at(trace, j) {
        Some(tuple) => mark_chain(index, codes, shape, tuple, marks),
        None => 0,
    }
}

/// Marks the places of the query that have this tuple, where no place is marked.
fn mark_chain(index: &Index, codes: &[u16], shape: Shape, tuple: &[u16], marks: &mut [u8]) -> usize
    requires few { length codes.now ≤ 1024 }
    requires room { length codes.now ≤ length marks.old }
    requires chained { Chained (tuple_number shape.size shape.gap codes.now) (starts shape.size shape.gap (length codes.now)) index.now.heads index.now.links }
    requires inside { (shape.size - 1) * shape.gap < length tuple.now }
    requires blank { (x : ℕ) → x < length codes.now → slice_index marks.old x ≡ 0 }
    ensures { Marked (λ i. same_tuple shape.size shape.gap codes.now tuple.now i 0) (length codes.now) marks.old marks.new result }
{
    let mut count = 0;
    let mut next = index.last(number_at(tuple, shape));
    while let Some(i) = next {
        if alike(&codes[i..], tuple, shape) {
            marks[i] = 1;
            count += 1;
        }
        next = index.previous(i);
    }
    count
}

/// Whether two lists begin with the same tuple.
pub(crate) fn alike(a: &[u16], b: &[u16], shape: Shape) -> bool
    requires { ((shape.size - 1) * shape.gap < length a.now) × ((shape.size - 1) * shape.gap < length b.now) }
    ensures { result ≡ same_tuple shape.size shape.gap a.now b.now 0 0 }
{
    let gap = shape.gap;
    // By index: `step_by` goes over every code between, and `all` over the places takes half as long again.
    for x in 0..shape.size {
        if a[x * gap] != b[x * gap] {
            return false;
        }
    }
    true
}
