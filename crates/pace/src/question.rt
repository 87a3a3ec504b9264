//! What the filters are asked for.

/// The length of matches.
pub const M: usize = 64;

/// The most mismatches of a match.
pub const K: usize = 3;
