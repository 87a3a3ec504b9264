//! What has been tried.
ghost use Rattle.std.specs.Prelude.{◌≡◌};
ghost use Rattle.trials.specs.Tallies.{counted, none_yet, together};

/// Counts of what has been tried. They stop at the largest number there is.
#[derive(Clone, Copy)]
pub struct Tally {
    pub cases: u32,
    /// The matches there are, by the search that only compares.
    pub matches: usize,
    /// The cases that have a question to be refused.
    pub refused: u32,
    /// The cases that a filter answers otherwise than expected, counted for each filter.
    pub differ: u32,
}

impl Tally {
    /// Nothing tried yet.
    pub fn new() -> Tally
        ensures { result ≡ none_yet }
    {
        Tally {
            cases: 0,
            matches: 0,
            refused: 0,
            differ: 0,
        }
    }

    /// Counts a case with so many matches, and with a question to be refused or none.
    pub fn count(&mut self, matches: usize, refused: bool)
        ensures { self.new ≡ counted self.old matches refused }
    {
        self.cases = self.cases.saturating_add(1);
        self.matches = self.matches.saturating_add(matches);
        if refused {
            self.refused = self.refused.saturating_add(1);
        }
    }

    /// Counts all that another has counted.
    pub fn add(&mut self, other: Tally)
        ensures { self.new ≡ together self.old other }
    {
        self.cases = self.cases.saturating_add(other.cases);
        self.matches = self.matches.saturating_add(other.matches);
        self.refused = self.refused.saturating_add(other.refused);
        self.differ = self.differ.saturating_add(other.differ);
    }
}
