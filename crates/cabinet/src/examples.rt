//! A query file to try a collection on, and all worked examples.
ghost use Rattle.std.specs.Prelude.{◌≡◌};
ghost use Rattle.cabinet.specs.Examples.{Examples, three_fives};

/// The file of a query of three equal pulses. Put to a trace of four of them with windows of two, it matches at six pairs of
/// places; a list of five refuses it.
pub fn three_fives() -> [u8; 6]
    ensures bytes { result ≡ three_fives }
    ensures examples { Examples }
{
    [0x01, 0x01, 0x03, 0x05, 0x05, 0x05]
}
