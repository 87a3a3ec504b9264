//! What the catalogue keeps of a trace.

/// A standing trace.
#[derive(Clone, Copy, PartialEq, Debug)]
pub struct Row {
    /// Its accession number.
    pub number: u32,
    /// The machine that recorded it.
    pub machine: u16,
    /// How many samples it has.
    pub length: u16,
    /// How many loans of it are counted.
    pub loans: u8,
    /// How many pairs of places of the standing question match in it.
    pub pairs: u32,
    /// How many places the filter passes in it.
    pub places: u32,
}

impl Row {
    /// A row that stands for no trace.
    pub const BLANK: Row = Row {
        number: 0,
        machine: 0,
        length: 0,
        loans: 0,
        pairs: 0,
        places: 0,
    };
}

/// What a search finds in one trace, in the 32 bits that a row has for it.
#[derive(Clone, Copy, Default, PartialEq, Debug)]
pub struct Count {
    pub pairs: u32,
    pub places: u32,
}

/// What some rows add up to.
#[derive(Clone, Copy, Default, PartialEq, Debug)]
pub struct Totals {
    pub samples: usize,
    pub pairs: usize,
    pub places: usize,
}
