//! A trace to try a search on, and the worked examples of match lists.
ghost use Rattle.std.specs.Prelude.{◌≡◌};
ghost use Rattle.search.specs.Examples.{Examples, four_fives};

/// A trace of four equal codes. Windows of two of three such codes match at all six pairs of places.
pub fn four_fives() -> [u16; 4]
    ensures codes { result ≡ four_fives }
    ensures examples { Examples }
{
    [5, 5, 5, 5]
}
