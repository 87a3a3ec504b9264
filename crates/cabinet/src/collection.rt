//! The collection as it lies in memory.
use catalog::catalog::Catalog;
use filters::held::Held;
use std::marker::PhantomData;

/// A collection of traces of the kind S, searched through the filter F. Samples and matches lie in memory that is brought
/// to its calls, slice by slice, since a call borrows for writing only what it writes.
#[derive(Clone, Copy)]
pub struct Collection<S, F> {
    pub(crate) kind: PhantomData<S>,
    pub(crate) filter: F,
    /// The standing question.
    pub(crate) question: Held,
    /// The number by which the collection knows its own slips.
    pub(crate) mark: u32,
    pub(crate) catalog: Catalog,
}
