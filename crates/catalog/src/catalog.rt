//! The catalogue as it lies in memory.
ghost use Rattle.std.specs.Prelude.{◌≡◌, ℕ, ◌<◌, ◌≤◌, length, take, slice_index_or};
ghost use Rattle.catalog.specs.Rows.{blank, samples_in, pairs_in};

use crate::row::Row;

/// The most traces that stand at a time.
pub const MOST_TRACES: usize = 256;

/// The standing traces, by rising accession number, and the lengths of the memory that holds their samples and their
/// matches. What they take of it never exceeds it. The rows are a table of fixed size with a count beside it, as a
/// collection takes no memory from a heap.
#[derive(Clone, Copy)]
pub struct Catalog {
    /// How many samples the store has room for.
    pub store: usize,
    /// How many matches the list has room for.
    pub list: usize,
    /// The last accession number that was given; 0 before the first.
    pub given: u32,
    pub rows: [Row; MOST_TRACES],
    /// How many rows are in use, from the front.
    pub used: usize,
    ghost full: { length rows ≡ 256 },
    ghost few: { used ≤ 256 },
    ghost sizes: { (store ≤ 65535) × (list ≤ 16384) },
    ghost short: { (i : ℕ) → i < used → (slice_index_or rows i blank).length ≤ 4096 },
    ghost stored: { samples_in (take used rows) ≤ store },
    ghost listed: { pairs_in (take used rows) ≤ list },
}
