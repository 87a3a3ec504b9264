//! What is searched for.

/// A query's codes, the length m of a window, and how many of its places, k, need not agree.
// No model, and `asked` in clauses instead: a type that borrows cannot have one and be `Copy`.
#[derive(Clone, Copy)]
pub struct Question<'a> {
    pub codes: &'a [u16],
    pub m: usize,
    pub k: usize,
}
